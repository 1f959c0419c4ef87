use crate::bit::Bit;
use queue::queues::{Queues, Taken};

const ON: Bit = Bit { on: true };

const OFF: Bit = Bit { on: false };

// A number of four bits.
fn number(n: u8) -> [Bit; 4] {
    [8, 4, 2, 1].map(|bit| Bit { on: n & bit == bit })
}

#[test]
fn nine(rt: HostRuntime) {
    let mut queues = Queues::new();
    for n in 1..10 {
        queues.send(3, &number(n));
    }
    let mut places = [ON; 4];
    assert_eq!(rt;
        queues.receive(4, &mut places),
        Taken {
            count: 0,
            missed: 0,
        }
    );
    assert_eq!(rt; places, [ON; 4]);
    assert_eq!(rt;
        queues.receive(3, &mut places),
        Taken {
            count: 4,
            missed: 1,
        }
    );
    assert_eq!(rt; places, number(2));
    assert_eq!(rt;
        queues.receive(3, &mut places),
        Taken {
            count: 4,
            missed: 0,
        }
    );
    assert_eq!(rt; places, number(3));
}

#[test]
fn missed(rt: HostRuntime) {
    let mut queues = Queues::new();
    for _ in 0..300 {
        queues.send(15, &[ON]);
    }
    let mut places = [OFF; 2];
    assert_eq!(rt;
        queues.receive(15, &mut places),
        Taken {
            count: 1,
            missed: 255,
        }
    );
    assert_eq!(rt; places, [ON, OFF]);
}

#[test]
fn lengths(rt: HostRuntime) {
    let mut queues = Queues::new();
    queues.send(0, &[ON; 5]);
    queues.send(16, &[ON]);
    let mut places = [OFF; 3];
    assert_eq!(rt;
        queues.receive(16, &mut places),
        Taken {
            count: 0,
            missed: 0,
        }
    );
    assert_eq!(rt;
        queues.receive(0, &mut places),
        Taken {
            count: 3,
            missed: 0,
        }
    );
    assert_eq!(rt; places, [ON; 3]);
}
