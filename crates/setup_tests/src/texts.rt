use rig::parse::parse;
use setup::directive::{Bottom, ElementKind};
use std::alloc::Global;
use std::process::Abort;
use std::test::Fail;

// Checks that each text is refused in these words.
fn refused(rt: &impl Abort, heap: Global, cases: &[[&str; 2]]) -> Result<(), Fail> {
    for case in cases {
        match parse(case[0]) {
            Ok(_) => return Err(Fail::new("accepted")),
            Err(error) => {
                let told = format!(in heap; "{error}")?;
                assert!(rt; told.as_str() == case[1], "{}", case[0]);
            }
        }
    }
    Ok(())
}

#[test]
fn words(rt: HostRuntime) -> Result<(), Fail> {
    refused(
        &rt,
        rt.alloc(),
        &[
            ["kinds level", "line 1: no such directive"],
            ["\n# c\nswap", "line 3: a word is missing"],
            ["grant 1 2", "line 1: a word is missing"],
            ["cells 4 4", "line 1: a word too many"],
            ["grant 0 0 3 x", "line 1: a word too many"],
            ["kind dimmer", "line 1: the kind is neither level nor head"],
            ["store", "line 1: a word is missing"],
            [
                "store round",
                "line 1: the store is neither flat nor packed",
            ],
        ],
    )
}

#[test]
fn numbers(rt: HostRuntime) -> Result<(), Fail> {
    refused(
        &rt,
        rt.alloc(),
        &[
            ["cells +4", "line 1: not a number"],
            ["cells -4", "line 1: not a number"],
            ["cells 0x", "line 1: not a number"],
            ["cells 0xg", "line 1: not a number"],
            ["cells 0x+4", "line 1: not a number"],
            ["cells 4a", "line 1: not a number"],
            ["cells 65536", "line 1: the number is over 65535"],
            [
                "cells 99999999999999999999",
                "line 1: the number is over 65535",
            ],
            ["layers 3", "line 1: the number is over 2"],
            ["port 0 256 0", "line 1: the number is over 255"],
            [
                "cells 1\nelement 0 0x100000000 0",
                "line 2: the number is over 4294967295",
            ],
        ],
    )
}

#[test]
fn order(rt: HostRuntime) -> Result<(), Fail> {
    refused(
        &rt,
        rt.alloc(),
        &[
            [
                "cells 4\ngrant 1 0 3\nswap 1",
                "line 3: refusal 16: the cell is swapped, or a part has it",
            ],
            [
                "cells 4\nswap 1\ngrant 1 0 3",
                "line 3: refusal 16: the cell is swapped, or a part has it",
            ],
            [
                "swap 1\ncells 4",
                "line 1: `cells` has to stand before this line",
            ],
            [
                "element 0 1 0",
                "line 1: `cells` has to stand before this line",
            ],
            [
                "cells 4\nkind head\ncells 4",
                "line 3: this directive stands a second time",
            ],
            [
                "kind head\nkind head",
                "line 2: this directive stands a second time",
            ],
            ["cells 4", "line 1: the text ends without a `kind`"],
            ["kind level\n\n", "line 2: the text ends without a `cells`"],
        ],
    )
}

#[test]
fn refusals(rt: HostRuntime) -> Result<(), Fail> {
    refused(
        &rt,
        rt.alloc(),
        &[
            [
                "cells 0",
                "line 1: refusal 14: the number of cells is 0 or over 512",
            ],
            [
                "cells 513",
                "line 1: refusal 14: the number of cells is 0 or over 512",
            ],
            [
                "cells 4\ngrant 4 0 3",
                "line 2: refusal 15: the cell is beyond the cells",
            ],
            [
                "cells 4\ngrant 0 8 3",
                "line 2: refusal 9: the part is over 7",
            ],
            [
                "cells 4\ngrant 0 0 4",
                "line 2: refusal 18: the mode is over 3",
            ],
            [
                "cells 4\ngrant 0 0 1\ngrant 0 1 1",
                "line 3: refusal 16: the cell is swapped, or a part has it",
            ],
            [
                "cells 4\nelement 4 0 0",
                "line 2: refusal 20: the cell is beyond the cells",
            ],
            ["port 16 0 0", "line 1: refusal 11: the port is over 15"],
        ],
    )
}

#[test]
fn whole(rt: HostRuntime) -> Result<(), Fail> {
    let text =
        "# a rig\nkind head\r\nstore packed\nlayers 2\n\n\tcells 0x200 # all\ngrant 0 7 3\nswap 511\nport 15 0x3 0x0C\nelement 2 1 2\nelement 2 0x00100020 3";
    match parse(text) {
        Err(_) => Err(Fail::new("refused")),
        Ok(s) => {
            assert!(rt; matches!(s.kind, ElementKind::Head));
            assert!(rt; matches!(s.store, Bottom::Packed));
            assert_eq!(rt; s.layers, 2);
            assert_eq!(rt; s.sheet.size(), 512);
            assert!(rt; s.sheet.may_touch(0, 7, true));
            assert!(rt; !s.sheet.may_touch(0, 0, false));
            assert!(rt; s.sheet.may_touch(511, 1, true));
            assert!(rt; s.ports.may_send(15, 1));
            assert!(rt; s.ports.may_receive(15, 3));
            assert!(rt; !s.ports.may_receive(15, 1));
            assert_eq!(rt; s.elements[2].first, 0x100020);
            assert_eq!(rt; s.elements[2].second, 3);
            assert_eq!(rt; s.elements[3].first, 0);
            Ok(())
        }
    }
}

#[test]
fn defaults(rt: HostRuntime) -> Result<(), Fail> {
    match parse("cells 1\nkind level") {
        Err(_) => Err(Fail::new("refused")),
        Ok(s) => {
            assert!(rt; matches!(s.kind, ElementKind::Level));
            assert!(rt; matches!(s.store, Bottom::Flat));
            assert_eq!(rt; s.layers, 0);
            Ok(())
        }
    }
}
