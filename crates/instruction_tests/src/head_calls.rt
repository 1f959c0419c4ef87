// Calls of the head set.
use element::colour::Colour;
use element::head::Head;
use instruction::apply::apply;
use instruction::fault::SetFault;
use sets::head_set::HeadSet;

const RED: Colour = Colour::Mix {
    red: 255,
    green: 0,
    blue: 0,
};

#[test]
fn codes_2_to_4(rt: HostRuntime) {
    let a = Head::new(65535, 1, Colour::Slot(2));
    let b = Head::new(2, 65534, RED);
    let mut places = [Head::new(0, 0, Colour::Open); 4];
    assert_eq!(rt; apply(&mut HeadSet::new(), 2, &[a, b], &mut places), Ok(1));
    assert_eq!(rt; places[0], Head::new(65535, 1, RED));
    assert_eq!(rt; apply(&mut HeadSet::new(), 3, &[a, b], &mut places), Ok(1));
    assert_eq!(rt; places[0], Head::new(1, 65535, Colour::Slot(2)));
    assert_eq!(rt;
        apply(
            &mut HeadSet::new(),
            4,
            &[Head::new(40000, 1000, RED)],
            &mut places,
        ),
        Ok(1)
    );
    assert_eq!(rt; places[0], Head::new(7232, 64535, RED));
    assert_eq!(rt; places[1], Head::new(0, 0, Colour::Open));
}

#[test]
fn faults_in_their_order(rt: HostRuntime) {
    let a = Head::new(1, 2, RED);
    let mut places = [a; 4];
    assert_eq!(rt;
        apply(&mut HeadSet::new(), 0, &[a], &mut places),
        Err(SetFault::UnknownCode)
    );
    assert_eq!(rt;
        apply(&mut HeadSet::new(), 5, &[a], &mut places),
        Err(SetFault::UnknownCode)
    );
    assert_eq!(rt;
        apply(&mut HeadSet::new(), 2, &[a], &mut places),
        Err(SetFault::WrongCount)
    );
    assert_eq!(rt;
        apply(&mut HeadSet::new(), 4, &[a, a], &mut places),
        Err(SetFault::WrongCount)
    );
    assert_eq!(rt;
        apply(&mut HeadSet::new(), 5, &[], &mut places[0..3]),
        Err(SetFault::FewPlaces)
    );
}
