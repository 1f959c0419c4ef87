// Packing and unpacking at the ends of the ranges, and of odd words.
use element::colour::Colour;
use element::element::Element;
use element::head::Head;
use element::level::Level;
use element::words::Words;

#[test]
fn levels_come_back(rt: HostRuntime) {
    assert_eq!(rt;
        Level::new(255).pack(),
        Words {
            first: 255,
            second: 0,
        }
    );
    assert_eq!(rt; Level::unpack(Level::new(255).pack()), Level::new(255));
    assert_eq!(rt; Level::unpack(Level::new(0).pack()), Level::null());
}

#[test]
fn a_level_is_the_low_byte(rt: HostRuntime) {
    assert_eq!(rt;
        Level::unpack(Words {
            first: 0xffffff07,
            second: 0xffffffff,
        }),
        Level::new(7)
    );
    assert_eq!(rt;
        Level::unpack(Words {
            first: 256,
            second: 1,
        }),
        Level::new(0)
    );
}

#[test]
fn heads_come_back(rt: HostRuntime) {
    let far = Head::new(
        65535,
        65535,
        Colour::Mix {
            red: 255,
            green: 128,
            blue: 1,
        },
    );
    assert_eq!(rt;
        far.pack(),
        Words {
            first: 0xffffffff,
            second: 0x02ff8001,
        }
    );
    assert_eq!(rt; Head::unpack(far.pack()), far);
    let last = Head::new(1, 0, Colour::Slot(255));
    assert_eq!(rt;
        last.pack(),
        Words {
            first: 0x00010000,
            second: 0x010000ff,
        }
    );
    assert_eq!(rt; Head::unpack(last.pack()), last);
    assert_eq!(rt;
        Head::null().pack(),
        Words {
            first: 0,
            second: 0,
        }
    );
}

#[test]
fn odd_colour_words(rt: HostRuntime) {
    assert_eq!(rt; Colour::from(0x00ffffff), Colour::Open);
    assert_eq!(rt; Colour::from(0x03000001), Colour::Open);
    assert_eq!(rt; Colour::from(0xff000001), Colour::Open);
    assert_eq!(rt; Colour::from(0x01ffff07), Colour::Slot(7));
    assert_eq!(rt;
        Colour::from(0x02010203),
        Colour::Mix {
            red: 1,
            green: 2,
            blue: 3,
        }
    );
}
