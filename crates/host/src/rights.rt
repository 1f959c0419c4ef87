ghost use Rattle.std.specs.Prelude.{◌≡◌, ℕ, ◌≤◌, length};
ghost use Rattle.cells.specs.Cells.{cell_list};
ghost use Rattle.sheet.specs.Rows.{touchable};
ghost use Rattle.sheet.specs.View.{rows_of};
ghost use Rattle.isolation.specs.Check.{Verdict, each, when};
ghost use Rattle.isolation.specs.Machine.{held_by};
ghost use Rattle.host.specs.Parts.{turn_of};
ghost use Rattle.host.specs.Steps.{then};

use cells::list::numbers::Numbers;
use command::refusal::Refusal;
use part::set::Part;
use sheet::sheet::Sheet;

// Refusal 12 for the first cell without the right; its place is counted from `from`. The rules tell the right by the flag `writing`.
pub(crate) fn first_without(
    sheet: &Sheet,
    part: Part,
    cells: &[u8],
    writing: bool,
    from: u8,
) -> Result<(), Refusal>
    requires few { length (cell_list cells.now) ≤ 8 }
    requires from { from ≤ 8 }
    ensures { (v : Verdict) → each (touchable (rows_of sheet.now) writing part.number) from (cell_list cells.now) v ≡ then result v }
{
    for (i, cell) in Numbers::of(cells).enumerate() {
        if !sheet.may_touch(cell, part.number, writing) {
            return Err(Refusal::Cell(from + i as u8));
        }
    }
    Ok(())
}

// Whether the turn is this part's.
pub(crate) fn has_turn(turn: Option<u8>, part: Part) -> bool
    ensures { result ≡ held_by (turn_of turn) part.number }
{
    turn == Some(part.number)
}

// Refusal 10 unless the turn is this part's. It names nobody: who has the turn would tell a part about a neighbour.
pub(crate) fn without_turn(turn: Option<u8>, part: Part) -> Result<(), Refusal>
    ensures { (v : Verdict) → when (held_by (turn_of turn) part.number) 10 0 v ≡ then result v }
{
    if has_turn(turn, part) {
        return Ok(());
    }
    Err(Refusal::Turn)
}

// Refusals 10 and 11, in this order: the turn is the part's, and the part has its right to the port. `right` is what the ports answered.
pub(crate) fn turn_then_port(turn: Option<u8>, part: Part, right: bool) -> Result<(), Refusal>
    ensures { (v : Verdict) → when (held_by (turn_of turn) part.number) 10 0 (when right 11 5 v) ≡ then result v }
{
    without_turn(turn, part)?;
    if !right {
        return Err(Refusal::Port);
    }
    Ok(())
}
