//! Random programs that make keys, seal and unseal.

use std::alloc::{AllocError, Global};

/// Words of a random program that stand together. To each word its second number is added as often as the phrase's operand
/// says.
type Phrase = &'static [(u32, u32)];

/// A store and a load of plain words from 300h on, keys from 320h on, sealed values from 340h on, and from 360h on where
/// they are moved to. An operand is the number of a word there, or a part of an immediate.
const PHRASES: [Phrase; 9] = [
    // addi x5, x5, 3 * operand
    &[(0x0002_8293, 0x0030_0000)],
    // add x6, x5, x6
    &[(0x0062_8333, 0)],
    // sw x5, 300h(x0)
    &[(0x3050_2023, 0x0000_0200)],
    // lw x7, 300h(x0)
    &[(0x3000_2383, 0x0040_0000)],
    // andi x5, x5, 3; li x6, operand; beq x5, x6, +8
    &[
        (0x0032_F293, 0),
        (0x0000_0313, 0x0010_0000),
        (0x0062_8463, 0),
    ],
    // make a key and keep it: li a7, 16; ecall; sw a0, 320h(x0); li a0, 0
    &[
        (0x0100_0893, 0),
        (0x0000_0073, 0),
        (0x32A0_2023, 0x0000_0200),
        (0x0000_0513, 0),
    ],
    // seal: lw a1, 320h(x0); li a0, 5 * operand; li a7, 17; ecall; sw a0, 340h(x0); li a0, 0; li a1, 0
    &[
        (0x3200_2583, 0x0040_0000),
        (0x0000_0513, 0x0050_0000),
        (0x0110_0893, 0),
        (0x0000_0073, 0),
        (0x34A0_2023, 0x0000_0200),
        (0x0000_0513, 0),
        (0x0000_0593, 0),
    ],
    // move: lw x8, 340h(x0); sw x8, 360h(x0); li x8, 0
    &[
        (0x3400_2403, 0x0040_0000),
        (0x3680_2023, 0x0000_0200),
        (0x0000_0413, 0),
    ],
    // unseal: lw a0, 340h(x0); lw a1, 320h(x0); li a7, 18; ecall; li a0, 0; li a1, 0
    &[
        (0x3400_2503, 0x0040_0000),
        (0x3200_2583, 0x0040_0000),
        (0x0120_0893, 0),
        (0x0000_0073, 0),
        (0x0000_0513, 0),
        (0x0000_0593, 0),
    ],
];

/// A linear congruential generator.
#[derive(Drop)]
struct Random {
    state: u32,
}

impl Random {
    /// The next number, of 16 bits.
    fn next(&mut self) -> u32 {
        self.state = self
            .state
            .wrapping_mul(1_664_525)
            .wrapping_add(1_013_904_223);
        self.state >> 16
    }
}

/// A jump back over this many words.
fn jump_back(count: usize) -> u32 {
    let count = u32::try_from(count).unwrap_or(0);
    0x001F_F06Fu32.wrapping_sub(count.wrapping_mul(0x0040_0000))
}

/// A random program: 24 phrases and a jump back to the first, at most 169 words.
pub(crate) fn program(alloc: Global, seed: u32) -> Result<Vec<u32>, AllocError> {
    let mut random = Random { state: seed };
    let mut words = Vec::new(alloc);
    for _ in 0..24 {
        let phrase = PHRASES[(random.next() % 9) as usize];
        let operand = random.next() % 2;
        for (word, step) in phrase {
            words.push(word.wrapping_add(step.wrapping_mul(operand)))?;
        }
    }
    words.push(jump_back(words.len()))?;
    Ok(words)
}
