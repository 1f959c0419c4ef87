use port::ports::Ports;
use std::test::Fail;

// Part 0 sends to 1, 1 to 2, and 4 to 5; port 2 was set before.
fn plan() -> Ports {
    let mut ports = Ports::new();
    let _ = ports.set(2, 0b1, 0b1000);
    let _ = ports.set(9, 0b1, 0b10);
    let _ = ports.set(2, 0b10, 0b100);
    let _ = ports.set(5, 0b10000, 0b100000);
    ports
}

#[test]
fn settings(rt: HostRuntime) {
    let ports = plan();
    assert!(rt; ports.may_send(2, 1) && !ports.may_send(2, 0));
    assert!(rt; ports.may_receive(2, 2) && !ports.may_receive(2, 3));
    assert!(rt; !ports.may_send(16, 0) && !ports.may_receive(2, 8));
}

#[test]
fn port_beyond(rt: HostRuntime) -> Result<(), Fail> {
    let mut ports = Ports::new();
    match ports.set(16, 255, 255) {
        Ok(()) => Err(Fail::new("port 16 was set")),
        Err(why) => {
            assert_eq!(rt; why.number(), 11);
            Ok(())
        },
    }
}

#[test]
fn reach(rt: HostRuntime) {
    let ports = plan();
    assert_eq!(rt; ports.upstream(0), 0b1);
    assert_eq!(rt; ports.upstream(2), 0b111);
    assert_eq!(rt; ports.upstream(5), 0b110000);
    assert_eq!(rt; ports.upstream(8), 0);
}
