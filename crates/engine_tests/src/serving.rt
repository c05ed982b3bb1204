//! The toy policy's service over memory.

ghost use Rattle.std.specs.Prelude.{◌≡◌, IfOk, length};
ghost use Rattle.tag_memory.specs.Pages.{items_of};

use crate::toy::Toy;
use monitor_calls::{Job, ServeEnd, View, serve};
use policy_trait::{Args, Part, Refused, Why};
use std::alloc::{AllocError, Global};
use std::test::Fail;
use tag_memory::{Pages, Ram};

/// Whether the service zeroes, tags of memory, and address, value and tag of each word of the range, or why the first word that
/// is refused is. Words outside the range refuse nothing.
const ROWS: &[(bool, [u32; 4], Result<&[(u32, u32, u32)], Why>)] = &[
    (true, [20, 21, 22, 23], Ok(&[(4, 0, 79), (8, 0, 78)])),
    (false, [20, 21, 22, 23], Ok(&[(4, 12, 79), (8, 13, 78)])),
    (false, [9, 20, 21, 8], Ok(&[(4, 12, 80), (8, 13, 79)])),
    (true, [9, 20, 9, 9], Err(Why::NotLive)),
    (true, [0, 9, 8, 0], Err(Why::NotLive)),
    (true, [0, 8, 9, 0], Err(Why::NotOwner)),
];

/// Whether a service was served with these words, or refused as it should be.
fn is_served(
    served: &Result<Job<u32>, ServeEnd>,
    zero: bool,
    wanted: Result<&[(u32, u32, u32)], Why>,
) -> bool {
    match (served, wanted) {
        (Ok(job), Ok(words)) => { job.words.as_slice() == words && job.plan.zero == zero }
        (Err(ServeEnd::Refused(refused)), Err(why)) => {
            *refused
                == Refused {
                    part: Part::Heap,
                    why,
                }
        }
        _ => false,
    }
}

#[test]
fn words_of_a_range(rt: HostRuntime) -> Result<(), Fail> {
    for &(zero, tags, wanted) in ROWS {
        let served = serve_toy(rt.alloc(), zero, tags)?;
        assert!(rt; is_served(&served, zero, wanted), "{tags:?}");
    }
    Ok(())
}

/// These tags, one for each word.
fn pages_of(alloc: Global, tags: [u32; 4]) -> Result<Pages<u32>, AllocError>
    ensures { IfOk result (λ pages. length (items_of pages) ≡ 4) }
{
    let [first, second, third, fourth] = tags;
    Pages::new(alloc, 4, 0)?
        .extended(1, first)?
        .extended(2, second)?
        .extended(3, third)?
        .extended(4, fourth)
}

/// The service, which zeroes or does not, over memory of the words 11, 12, 13 and 14 with these tags.
fn serve_toy(
    alloc: Global,
    zero: bool,
    tags: [u32; 4],
) -> Result<Result<Job<u32>, ServeEnd>, AllocError> {
    let words = [11, 12, 13, 14].to_vec(alloc)?;
    let ram = Ram::from_parts(words, pages_of(alloc, tags)?, 0);
    let arguments = Args {
        a0: if zero { 0 } else { 1 },
        a1: 0,
        a2: 0,
        t0: 0,
        t1: 0,
        t2: 0,
        ram: View::bytes(&ram),
    };
    Ok(serve(alloc, &Toy::new(3), 40, &arguments, 5, &ram))
}
