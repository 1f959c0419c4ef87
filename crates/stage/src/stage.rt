// From a setup to the one generic run: the layers, the store, the kind.
use crate::fault::StageFault;
use crate::last_cells::Cells;
use crate::memory::{laid_out, paired, unpacked};
use crate::play::{Play, Played};
use crate::session::Session;
use element::element::Element;
use element::head::Head;
use element::level::Level;
use instruction::set::InstructionSet;
use layer::held::Held;
use rig::whole_setup::Setup;
use sets::head_set::HeadSet;
use sets::level_set::LevelSet;
use setup::directive::{Bottom, ElementKind};
use std::alloc::Global;
use store::flat::Flat;
use store::packed::Packed;
use store::store::Store;

// The run over this store, on the chosen number of layers. Each number has a type of its own, so there is an arm for each.
fn layered<S: Store + Drop, I: InstructionSet<S::Item> + Drop>(
    layers: u8,
    bottom: S,
    play: Play<'_, I>,
    session: &mut Session,
) -> Result<(), StageFault> {
    let Played { store: _, ended } = match layers {
        0 => play.on(bottom, session),
        1 => play.held(bottom, session),
        _ => {
            let Played { store, ended } = play.held(Held::new(bottom), session);
            Played {
                store: store.close(),
                ended,
            }
        }
    };
    ended
}

// The run over the chosen store; what its cells hold then.
fn stored<E: Element, I: InstructionSet<E> + Drop>(
    heap: Global,
    setup: Setup,
    set: I,
    shows: &[Vec<u8>],
    session: &mut Session,
) -> Result<Vec<E>, StageFault> {
    let Setup {
        kind: _,
        store,
        layers,
        sheet,
        ports,
        elements,
    } = setup;
    let size = sheet.size().min(512);
    let first = &elements[0..size];
    let play = Play {
        heap,
        set,
        sheet,
        ports,
        shows,
    };
    match store {
        Bottom::Flat => {
            let mut cells = unpacked::<E>(heap, first)?;
            layered(layers, Flat::new(cells.as_mut_slice()), play, session)?;
            Ok(cells)
        }
        Bottom::Packed => {
            let mut list = laid_out(heap, first)?;
            layered(layers, Packed::<E>::new(list.as_mut_slice()), play, session)?;
            let words = paired(heap, list.as_slice())?;
            Ok(unpacked::<E>(heap, words.as_slice())?)
        }
    }
}

// Makes the host that a setup asks for and plays the shows in order on it, as the session asks; what the cells hold then.
pub fn play_shows(
    heap: Global,
    setup: Setup,
    shows: &[Vec<u8>],
    session: &mut Session,
) -> Result<Cells, StageFault> {
    match setup.kind {
        ElementKind::Level => stored(heap, setup, LevelSet::new(), shows, session).map(
            Cells::Levels,
        ),
        ElementKind::Head => stored(heap, setup, HeadSet::new(), shows, session).map(Cells::Heads),
    }
}
