use sheet::sheet::{Refused, Sheet};

// The sheet that a change gives back, changed or not.
fn after(r: Result<Sheet, Refused>) -> Sheet {
    r.unwrap_or_else(|refused| refused.sheet)
}

// The number of a change's refusal, or 0.
fn number(r: Result<Sheet, Refused>) -> u8 {
    r.err().map_or(0, |refused| refused.why.number())
}

// A sheet of four cells: part 7 has cell 3, and cell 2 is swapped.
fn small() -> Sheet {
    let sheet = after(Sheet::new(4));
    let sheet = after(sheet.grant(3, 7, 3));
    after(sheet.swap(2))
}

// A sheet of twenty cells: part 0 reads cell 19, and the first cells are swapped.
fn swapped(count: usize) -> Sheet {
    let mut sheet = after(after(Sheet::new(20)).grant(19, 0, 1));
    for cell in 0..count {
        sheet = after(sheet.swap(cell));
    }
    sheet
}

// Whether part 1 may read and write a cell that it was granted in a mode.
fn rights(mode: u8) -> (bool, bool) {
    let sheet = after(small().grant(0, 1, mode));
    (sheet.may_touch(0, 1, false), sheet.may_touch(0, 1, true))
}

#[test]
fn sizes(rt: HostRuntime) {
    assert_eq!(rt; number(Sheet::new(512)), 0);
    assert_eq!(rt; after(Sheet::new(512)).size(), 512);
    assert_eq!(rt; number(Sheet::new(513)), 14);
    assert_eq!(rt; after(Sheet::new(513)).size(), 1);
    assert_eq!(rt; number(Sheet::new(0)), 14);
}

#[test]
fn modes(rt: HostRuntime) {
    assert_eq!(rt; rights(0), (true, true));
    assert_eq!(rt; rights(1), (true, false));
    assert_eq!(rt; rights(2), (false, true));
    assert_eq!(rt; rights(3), (true, true));
    assert_eq!(rt; rights(4), (false, false));
}

#[test]
fn grant_refusals(rt: HostRuntime) {
    assert_eq!(rt; number(small().grant(4, 8, 4)), 15);
    assert_eq!(rt; number(small().grant(3, 8, 4)), 9);
    assert_eq!(rt; number(small().grant(3, 6, 4)), 18);
    assert_eq!(rt; number(small().grant(3, 6, 1)), 16);
    assert_eq!(rt; number(small().grant(2, 6, 1)), 16);
    assert_eq!(rt; number(small().grant(3, 7, 1)), 0);
}

#[test]
fn swap_refusals(rt: HostRuntime) {
    assert_eq!(rt; number(swapped(16).swap(20)), 15);
    assert_eq!(rt; number(swapped(16).swap(19)), 16);
    assert_eq!(rt; number(swapped(16).swap(3)), 16);
    assert_eq!(rt; number(swapped(16).swap(16)), 17);
    assert_eq!(rt; number(swapped(15).swap(15)), 0);
    assert_eq!(rt; swapped(16).swaps().len(), 16);
}

#[test]
fn swapped_cells(rt: HostRuntime) {
    assert!(rt; small().may_touch(2, 5, true));
    assert!(rt; !small().may_touch(2, 8, true));
    assert!(rt; !small().may_touch(4, 5, true));
    assert!(rt; !small().may_touch(3, 5, false));
}
