// The calls on a rig. C gives the kind, the layers and a mode as numbers, and reads a refusal as one.
ghost use Rattle.std.specs.Prelude.{◌≡◌, ℕ, false, replicate, IfOk, IfErr, MatchResult};
ghost use Rattle.part.specs.Sets.{parts};
ghost use Rattle.sheet.specs.Rows.{made};
ghost use Rattle.sheet.specs.View.{outcome, rows_of};
ghost use Rattle.port.specs.Sets.{no_sets, sends_of, receives_of};
ghost use Rattle.port.specs.Reach.{Reach};
ghost use Rattle.driver.specs.declared.rig.calls.RigRefusal.TheVariants.{AtSheet};
ghost use Rattle.driver.specs.Rigs.{new_number, number_of, NewRig, Grants, Swaps, Connects};

use super::Rig;
use part::set::Mask;
use port::ports::Ports;
use sheet::refusal::Refusal;
use sheet::sheet::{Refused, Sheet};

// The refusal of a kind other than levels (0) and heads (1).
pub const BAD_KIND: u32 = 101;

// The refusal of more than two layers.
pub const BAD_LAYERS: u32 = 102;

// The rig that comes with a refusal: one cell, levels and no layers.
fn smallest() -> Rig
    ensures rows { rows_of result.sheet ≡ (made 1).rows }
    ensures ports { result.ports.ports ≡ replicate 16 no_sets }
    ensures kind { result.heads ≡ false }
    ensures layers { result.layers ≡ 0 }
{
    let sheet = Sheet::new(1).unwrap_or_else(|refused| refused.sheet);
    Rig {
        sheet,
        ports: Ports::new(),
        heads: false,
        layers: 0,
    }
}

// Why a rig is not made.
#[derive(Clone, Copy)]
enum RigRefusal {
    Kind,
    Layers,
    AtSheet(Refusal),
}

impl RigRefusal {
    // The refusal's number for C.
    fn number(self) -> u32
        ensures { result ≡ number_of self }
    {
        match self {
            RigRefusal::Kind => BAD_KIND,
            RigRefusal::Layers => BAD_LAYERS,
            RigRefusal::AtSheet(why) => why.number() as u32,
        }
    }
}

impl From<Refused> for RigRefusal {
    ghost from_gives = { λ refused why. why ≡ AtSheet refused.why };

    fn from(refused: Refused) -> RigRefusal {
        RigRefusal::AtSheet(refused.why)
    }
}

// A rig of so many cells, with no bits, no swapped cells and no ports.
fn rig_of(kind: u32, layers: u32, cells: usize) -> Result<Rig, RigRefusal>
    ensures made { IfOk result (λ rig. NewRig kind layers cells rig 0) }
    ensures refused { IfErr result (λ why. number_of why ≡ new_number kind layers cells) }
{
    if kind > 1 {
        return Err(RigRefusal::Kind);
    }
    if layers > 2 {
        return Err(RigRefusal::Layers);
    }
    let sheet = Sheet::new(cells)?;
    Ok(Rig {
        sheet,
        ports: Ports::new(),
        heads: kind == 1,
        layers: layers as u8,
    })
}

// A rig of so many cells, with no bits, no swapped cells and no ports; or a refusal, and then the smallest rig.
#[unsafe(no_mangle)]
pub extern "C" fn nuvkerd_rig_new(kind: u32, layers: u32, cells: usize, refusal: &mut u32) -> Rig
    ensures { NewRig kind layers cells result refusal.new }
{
    let rig = match rig_of(kind, layers, cells) {
        Ok(rig) => rig,
        Err(why) => {
            *refusal = why.number();
            return smallest();
        }
    };
    *refusal = 0;
    rig
}

// Puts a changed sheet in the old one's place and gives 0, or gives the number of its refusal.
fn settle(sheet: &mut Sheet, changed: Result<Sheet, Refused>) -> u32
    ensures number { result ≡ (outcome changed).number }
    ensures sheet { MatchResult changed (λ s. sheet.new ≡ s) (λ e. sheet.new ≡ sheet.old) }
{
    match changed {
        Ok(new) => {
            *sheet = new;
            0
        }
        Err(refused) => refused.why.number() as u32,
    }
}

// Grants a cell to a part; refusals 15, 9, 18, 16.
#[unsafe(no_mangle)]
pub extern "C" fn nuvkerd_rig_grant(rig: &mut Rig, cell: usize, part: u8, mode: u8) -> u32
    ensures { Grants rig.old rig.new cell part mode result }
{
    let changed = rig.sheet.grant(cell, part, mode);
    settle(&mut rig.sheet, changed)
}

// Makes a cell a swapped one; refusals 15, 16, 17.
#[unsafe(no_mangle)]
pub extern "C" fn nuvkerd_rig_swap(rig: &mut Rig, cell: usize) -> u32
    ensures { Swaps rig.old rig.new cell result }
{
    let changed = rig.sheet.swap(cell);
    settle(&mut rig.sheet, changed)
}

// Sets who may send to a port and who may receive from it; refusal 11.
#[unsafe(no_mangle)]
pub extern "C" fn nuvkerd_rig_port(rig: &mut Rig, port: u8, senders: Mask, receivers: Mask) -> u32
    ensures { Connects rig.old rig.new port senders receivers result }
{
    rig.ports
        .set(port, senders, receivers)
        .map_or_else(|why| why.number() as u32, |_| 0)
}

// The parts upstream of a part; none for a part that there is not.
#[unsafe(no_mangle)]
pub extern "C" fn nuvkerd_rig_upstream(rig: &Rig, part: u8) -> Mask
    ensures { Reach parts (sends_of rig.now.ports) (receives_of rig.now.ports) part result }
{
    rig.ports.upstream(part)
}
