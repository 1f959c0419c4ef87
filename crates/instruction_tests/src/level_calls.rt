// Calls of the level set: counts, codes, places, and each code's value.
use element::level::Level;
use instruction::apply::apply;
use instruction::fault::SetFault;
use sets::level_set::LevelSet;

fn levels(a: u8, b: u8, c: u8, d: u8) -> [Level; 4] {
    [a, b, c, d].map(Level::new)
}

#[test]
fn code_1_gives_back(rt: HostRuntime) {
    let mut places = levels(9, 9, 9, 9);
    assert_eq!(rt;
        apply(
            &mut LevelSet::new(),
            1,
            &levels(7, 8, 0, 0)[0..2],
            &mut places,
        ),
        Ok(2)
    );
    assert_eq!(rt; places, levels(7, 8, 9, 9));
    assert_eq!(rt; apply(&mut LevelSet::new(), 1, &[], &mut places), Ok(0));
    assert_eq!(rt; places, levels(7, 8, 9, 9));
    assert_eq!(rt;
        apply(&mut LevelSet::new(), 1, &[Level::new(1); 5], &mut places),
        Err(SetFault::WrongCount)
    );
    assert_eq!(rt; places, levels(7, 8, 9, 9));
}

#[test]
fn code_2_gives_the_highest(rt: HostRuntime) {
    let mut places = levels(9, 9, 9, 9);
    assert_eq!(rt;
        apply(
            &mut LevelSet::new(),
            2,
            &levels(3, 200, 4, 199),
            &mut places,
        ),
        Ok(1)
    );
    assert_eq!(rt; places, levels(200, 9, 9, 9));
    assert_eq!(rt;
        apply(&mut LevelSet::new(), 2, &[Level::new(5); 8], &mut places),
        Ok(1)
    );
    assert_eq!(rt; places, levels(5, 9, 9, 9));
    assert_eq!(rt;
        apply(&mut LevelSet::new(), 2, &[Level::new(5); 9], &mut places),
        Err(SetFault::WrongCount)
    );
    assert_eq!(rt;
        apply(&mut LevelSet::new(), 2, &[], &mut places),
        Err(SetFault::WrongCount)
    );
}

#[test]
fn codes_3_to_6(rt: HostRuntime) {
    let mut places = levels(9, 9, 9, 9);
    assert_eq!(rt;
        apply(
            &mut LevelSet::new(),
            3,
            &levels(128, 128, 0, 0)[0..2],
            &mut places,
        ),
        Ok(1)
    );
    assert_eq!(rt; places, levels(64, 9, 9, 9));
    assert_eq!(rt;
        apply(&mut LevelSet::new(), 4, &[Level::new(12)], &mut places),
        Ok(1)
    );
    assert_eq!(rt; places, levels(1, 9, 9, 9));
    assert_eq!(rt;
        apply(
            &mut LevelSet::new(),
            5,
            &levels(0, 255, 128, 0)[0..3],
            &mut places,
        ),
        Ok(1)
    );
    assert_eq!(rt; places, levels(128, 9, 9, 9));
    assert_eq!(rt;
        apply(&mut LevelSet::new(), 6, &[Level::new(255)], &mut places),
        Ok(1)
    );
    assert_eq!(rt; places, levels(255, 9, 9, 9));
}

#[test]
fn faults_in_their_order(rt: HostRuntime) {
    let mut places = levels(9, 9, 9, 9);
    assert_eq!(rt;
        apply(&mut LevelSet::new(), 0, &[], &mut places),
        Err(SetFault::UnknownCode)
    );
    assert_eq!(rt;
        apply(&mut LevelSet::new(), 7, &[], &mut places),
        Err(SetFault::UnknownCode)
    );
    assert_eq!(rt;
        apply(&mut LevelSet::new(), 255, &[], &mut places),
        Err(SetFault::UnknownCode)
    );
    assert_eq!(rt;
        apply(&mut LevelSet::new(), 3, &levels(1, 2, 3, 4), &mut places),
        Err(SetFault::WrongCount)
    );
    assert_eq!(rt;
        apply(&mut LevelSet::new(), 7, &[], &mut places[0..3]),
        Err(SetFault::FewPlaces)
    );
    assert_eq!(rt;
        apply(&mut LevelSet::new(), 6, &[], &mut places[0..3]),
        Err(SetFault::FewPlaces)
    );
    assert_eq!(rt; SetFault::FewPlaces.number(), 3);
    assert_eq!(rt; places, levels(9, 9, 9, 9));
}
