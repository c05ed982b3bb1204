//! Writes of memory and their neighbours, and the tags that stand in memory and in a hart.

use std::test::Fail;
use tag_memory::{Hart, Ram};

#[test]
fn words_and_tags_of_new_memory(rt: HostRuntime) -> Result<(), Fail> {
    let mut ram = Ram::new(rt.alloc(), 12, 'p')?;
    assert!(rt; ram.bytes() == 12);
    ram.set_word(4, 0x1234_5678);
    ram.set_tag(8, 't');
    // address, word, tag
    for (address, word, tag) in [(0, 0, 'p'), (4, 0x1234_5678, 'p'), (8, 0, 't')] {
        assert!(rt;
            ram.word(address) == word && ram.tag(address) == tag,
            "at {address}"
        );
    }
    Ok(())
}

#[test]
fn one_word_of_a_filled_page_is_written(rt: HostRuntime) -> Result<(), Fail> {
    let mut ram = Ram::new(rt.alloc(), 1024, 0_u32)?;
    ram.fill(256, 64, 7);
    // the page behind the first one, and those beside it
    for (page, tag) in [(0, 0), (1, 7), (2, 0)] {
        assert!(rt; ram.page_tag(page) == Some(tag), "page {page}");
    }
    ram.set_tag(300, 9);
    assert!(rt; ram.page_tag(1).is_none());
    for place in 64..128 {
        let tag = if place == 75 { 9 } else { 7 };
        assert!(rt; ram.tag(4 * place) == tag, "at {place}");
    }
    assert!(rt; ram.tag(252) == 0 && ram.tag(512) == 0);
    Ok(())
}

#[test]
fn tags_of_a_hart_are_told_and_renumbered(rt: HostRuntime) -> Result<(), Fail> {
    // each register has its own number, and the pc the one behind them
    let mut hart = Hart::new(rt.alloc(), 64, 32, 0_u32)?;
    for register in 1..32 {
        hart.set_reg_tag(register, register);
    }
    let mut told = Vec::new(rt.alloc());
    hart.push_tags(&mut told)?;
    assert!(rt; told.len() == 32 && told.first() == Some(&32));
    for (place, tag) in told.iter().enumerate().skip(1) {
        assert!(rt; *tag as usize == place, "at {place}");
    }
    hart.renumber(&[9, 8, 7]);
    assert!(rt; hart.plain() == 9 && hart.pc_tag() == 0 && hart.pc() == 64);
    for (register, tag) in [(0, 9), (1, 8), (2, 7), (3, 0), (31, 0)] {
        assert!(rt; hart.reg_tag(register) == tag, "x{register}");
    }
    Ok(())
}

#[test]
fn tags_of_memory_are_told_and_renumbered(rt: HostRuntime) -> Result<(), Fail> {
    // a page of which one word differs, one that is filled, and one of two words
    let mut ram = Ram::new(rt.alloc(), 520, 1_u32)?;
    ram.fill(256, 64, 2);
    ram.set_tag(8, 2);
    let mut told = Vec::new(rt.alloc());
    told.push(5)?;
    ram.push_tags(&mut told)?;
    assert!(rt; told.len() == 131 && told.first() == Some(&5));
    for (place, tag) in told.iter().skip(1).enumerate() {
        let second = place == 2 || (64..128).contains(&place);
        assert!(rt; *tag == if second { 2 } else { 1 }, "at {place}");
    }
    ram.renumber(&[0, 30]);
    // until this write the last page has no slots of its own
    ram.set_tag(512, 4);
    for (place, tag) in [
        (0, 30),
        (2, 0),
        (63, 30),
        (64, 0),
        (127, 0),
        (128, 4),
        (129, 30),
    ] {
        assert!(rt; ram.tag(4 * place) == tag, "at {place}");
    }
    Ok(())
}
