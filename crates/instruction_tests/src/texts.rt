// Elements as people read them.
use element::colour::Colour;
use element::head::Head;
use element::level::Level;
use std::test::Fail;

#[test]
fn texts(rt: HostRuntime) -> Result<(), Fail> {
    let heap = rt.alloc();
    assert_eq!(rt; Level::new(255).to_string(heap)?.as_str(), "255");
    assert_eq!(rt;
        Head::new(40000, 1000, Colour::Open)
            .to_string(heap)?
            .as_str(),
        "pan 40000 tilt 1000 open"
    );
    assert_eq!(rt;
        Head::new(0, 65535, Colour::Slot(3))
            .to_string(heap)?
            .as_str(),
        "pan 0 tilt 65535 slot 3"
    );
    assert_eq!(rt;
        Colour::Mix {
            red: 255,
            green: 128,
            blue: 0,
        }
        .to_string(heap)?
        .as_str(),
        "mix 255 128 0"
    );
    Ok(())
}
