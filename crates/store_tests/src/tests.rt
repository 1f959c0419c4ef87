use crate::traced::Traced;
use element::level::Level;
use layer::held::Held;
use layer::pile::replay_held;
use std::process::Abort;
use std::test::Fail;
use store::access::{Access, Answer};
use store::flat::Flat;
use store::packed::Packed;
use store::store::Store;
use transfer::row::swap::{swap_in, swap_out};
use transfer::transfer::{gather, read_or_null, scatter};

// The same work on any store of 20 levels, all null at first.
fn work<S: Store<Item = Level>>(
    rt: &impl Abort,
    store: &mut S,
    places: &mut [Level],
) -> Result<(), Fail> {
    assert_eq!(rt; (*store).len(), 20);
    scatter(store, &[0, 0, 0, 0, 5, 0], &[Level::new(7), Level::new(9)]);
    for n in 6..20 {
        store.write(n, Level::new(100))?;
    }
    assert!(rt; store.write(20, Level::new(1)).is_err());
    assert!(rt; store.read(20).is_err());
    assert_eq!(rt; gather(store, &[0, 0, 5, 0, 19, 0, 200, 0], places), 4);
    let row = swap_out(store, &[0, 19]);
    store.write(0, Level::new(1))?;
    swap_in(store, &[0, 19], row);
    assert_eq!(rt; read_or_null(store, 0).value, 7);
    Ok(())
}

fn one_layer<S: Store<Item = Level> + Drop>(
    rt: &impl Abort,
    bottom: S,
    places: &mut [Level],
) -> Result<(), Fail> {
    let mut layer = Held::new(bottom);
    let told = work(rt, &mut layer, places);
    let _bottom = layer.close();
    told
}

fn two_layers<S: Store<Item = Level> + Drop>(
    rt: &impl Abort,
    bottom: S,
    places: &mut [Level],
) -> Result<(), Fail> {
    let mut pile = Held::new(Held::new(bottom));
    let told = work(rt, &mut pile, places);
    let middle = pile.close();
    let _bottom = middle.close();
    told
}

// What the work leaves in five places that held 3.
fn check_places(rt: &impl Abort, places: &[Level; 5]) {
    assert_eq!(rt; places[0].value, 7);
    assert_eq!(rt; places[1].value, 0);
    assert_eq!(rt; places[2].value, 100);
    assert_eq!(rt; places[3].value, 0);
    assert_eq!(rt; places[4].value, 3);
}

#[test]
fn flat_alone(rt: HostRuntime) -> Result<(), Fail> {
    let mut cells = [Level::new(0); 20];
    let mut places = [Level::new(3); 5];
    work(&rt, &mut Flat::new(&mut cells), &mut places)?;
    check_places(&rt, &places);
    assert_eq!(rt; cells[19].value, 100);
    Ok(())
}

#[test]
fn flat_under_one_layer(rt: HostRuntime) -> Result<(), Fail> {
    let mut cells = [Level::new(0); 20];
    let mut places = [Level::new(3); 5];
    one_layer(&rt, Flat::new(&mut cells), &mut places)?;
    check_places(&rt, &places);
    assert_eq!(rt; cells[0].value, 7);
    assert_eq!(rt; cells[19].value, 100);
    Ok(())
}

#[test]
fn packed_under_two_layers(rt: HostRuntime) -> Result<(), Fail> {
    let mut words = [0u32; 41];
    words[40] = 77;
    let mut places = [Level::new(3); 5];
    two_layers(&rt, Packed::<Level>::new(&mut words), &mut places)?;
    check_places(&rt, &places);
    assert_eq!(rt; words[0], 7);
    assert_eq!(rt; words[38], 100);
    assert_eq!(rt; words[40], 77);
    Ok(())
}

#[test]
fn packed_alone(rt: HostRuntime) -> Result<(), Fail> {
    let mut words = [0u32; 41];
    words[40] = 77;
    let mut places = [Level::new(3); 5];
    work(&rt, &mut Packed::<Level>::new(&mut words), &mut places)?;
    check_places(&rt, &places);
    assert_eq!(rt; words[10], 0);
    assert_eq!(rt; words[40], 77);
    Ok(())
}

// Sixteen cells are held, one of them is rewritten, and a seventeenth comes.
fn seventeen<S: Store<Item = Level> + Drop>(rt: &impl Abort, bottom: S) {
    let mut layer = Held::new(Traced::new(bottom));
    for n in 0..16 {
        let _ = layer.write(n, Level::new(1));
    }
    let _ = layer.write(0, Level::new(2));
    let _ = layer.write(16, Level::new(3));
    let held = layer.read(16);
    layer.flush();
    let _ = layer.write(5, Level::new(4));
    let traced = layer.close();
    assert!(rt; held.is_ok());
    assert_eq!(rt; traced.reads, 0);
    assert_eq!(rt; traced.writes, 18);
    assert_eq!(rt; traced.order[0], 0);
    assert_eq!(rt; traced.order[1], 1);
    assert_eq!(rt; traced.order[15], 15);
    assert_eq!(rt; traced.order[16], 16);
    assert_eq!(rt; traced.order[17], 5);
}

#[test]
fn longest_held_goes_first(rt: HostRuntime) {
    let mut cells = [Level::new(0); 20];
    seventeen(&rt, Flat::new(&mut cells));
    assert_eq!(rt; cells[0].value, 2);
    assert_eq!(rt; cells[5].value, 4);
    assert_eq!(rt; cells[16].value, 3);
}

// An answer's level and its refusal's number.
fn seen(answer: Answer<Level>) -> (u8, u8) {
    match answer {
        Ok(Some(x)) => (x.value, 0),
        Ok(None) => (0, 0),
        Err(fault) => (0, fault.number()),
    }
}

#[test]
fn answers_through_a_layer(rt: HostRuntime) {
    let mut cells = [Level::new(0); 4];
    let accesses = [
        Access::Write(3, Level::new(9)),
        Access::Read(3),
        Access::Read(4),
    ];
    let mut places = [Ok(None); 3];
    let _flat = replay_held(Flat::new(&mut cells), &accesses, &mut places);
    let [stored, held, beyond] = places;
    assert_eq!(rt; seen(stored), (0, 0));
    assert_eq!(rt; seen(held), (9, 0));
    assert_eq!(rt; seen(beyond), (0, 20));
}
