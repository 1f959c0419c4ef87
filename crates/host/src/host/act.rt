ghost use Rattle.std.specs.Prelude.{◌≡◌, ℕ, ◌<◌, ◌≤◌, true, length};
ghost use Rattle.cells.specs.Cells.{cell_list, Within};
ghost use Rattle.command.specs.Commands.{order_of, Few};
ghost use Rattle.command.specs.Order as order;
ghost use Rattle.isolation.specs.Check.{check, pass};
ghost use Rattle.isolation.specs.Machine.{act, is_open, held_by, record_step};
ghost use Rattle.host.specs.Parts.{turn_of};
ghost use Rattle.host.specs.Hosted.{making_of, fits_of};
ghost use Rattle.host.specs.Steps.{Does, verdict_of};

use super::Host;
use crate::rights::{first_without, turn_then_port, without_turn};
use crate::rows::keep;
use command::command::Command;
use command::decode::decode;
use command::log::Answer;
use command::refusal::Refusal;
use element::element::Element;
use instruction::apply::apply;
use instruction::set::InstructionSet;
use part::set::Part;
use reply::values::values;
use store::store::Store;
use transfer::row::swap::{swap_in, swap_out};
use transfer::transfer::{gather, scatter};

impl<S: Store, I: InstructionSet<S::Item>> Host<S, I> {
    // Refusals 10 to 12, in their order.
    fn verdict(&self, part: Part, command: Command) -> Result<(), Refusal>
        requires { Few command }
        ensures { (m : ℕ → S.Item) → verdict_of result ≡ check (making_of S.Item.Element I.InstructionSet self.now m) (is_open (turn_of self.now.turn)) (held_by (turn_of self.now.turn) part.number) part.number (order_of command.entry) }
    {
        match command {
            Command::Restore => {
                if self.turn.is_some() {
                    return Err(Refusal::Turn);
                }
                Ok(())
            }
            Command::Save => without_turn(self.turn, part),
            Command::Instruct {
                code: _,
                args,
                results,
            } => {
                without_turn(self.turn, part)?;
                first_without(&self.sheet, part, args, false, 0)?;
                first_without(&self.sheet, part, results, true, 8)
            }
            Command::Send { port, args } => {
                let right = self.ports.may_send(port, part.number);
                turn_then_port(self.turn, part, right)?;
                first_without(&self.sheet, part, args, false, 0)
            }
            Command::Receive { port, results } => {
                let right = self.ports.may_receive(port, part.number);
                turn_then_port(self.turn, part, right)?;
                first_without(&self.sheet, part, results, true, 8)
            }
        }
    }

    // The swapped cells take the part's row, and the turn is the part's.
    // That the store fits is asked and stands in no type: a host may hold two sizes.
    fn restore(&mut self, part: Part) -> Answer
        requires fits { fits_of S.Store S.Item.Element self.old ≡ true }
        ensures does { Does S.Store S.Item.Element I.InstructionSet self.old self.new (λ k s. act k pass part.number order.restore s) result }
        ensures lender { S.Store.lender self.new.store ≡ S.Store.lender self.old.store }
    {
        let row = self.rows[part.number as usize];
        swap_in(&mut self.store, self.sheet.swaps(), row);
        self.turn = Some(part.number);
        Ok(None)
    }

    // The part's row takes the swapped cells, and the turn is nobody's.
    fn save(&mut self, part: Part) -> Answer
        ensures does { Does S.Store S.Item.Element I.InstructionSet self.old self.new (λ k s. act k pass part.number order.save s) result }
        ensures lender { S.Store.lender self.new.store ≡ S.Store.lender self.old.store }
    {
        let row = swap_out(&mut self.store, self.sheet.swaps());
        keep(&mut self.rows, part, row);
        self.turn = None;
        Ok(None)
    }

    // The set is given the code and the arguments' elements; what it gives goes to the result cells.
    fn instruct(
        &mut self,
        part: Part,
        code: u8,
        xs: &[u8],
        rs: &[u8],
        args: &mut [S::Item],
        results: &mut [S::Item],
    ) -> Answer
        requires few { length (cell_list xs.now) ≤ length args.old }
        requires room { 4 ≤ length results.old }
        requires fits { fits_of S.Store S.Item.Element self.old ≡ true }
        requires within { Within self.old.sheet.size (cell_list rs.now) }
        ensures does { Does S.Store S.Item.Element I.InstructionSet self.old self.new (λ k s. act k pass part.number (order.work (order.instruct code (cell_list xs.now) (cell_list rs.now))) s) result }
        ensures lender { S.Store.lender self.new.store ≡ S.Store.lender self.old.store }
    {
        let n = gather(&mut self.store, xs, args);
        let many = apply(&mut self.set, code, &args[0..n], results).map_err(|fault| Refusal::Set(
            fault.number(),
        ))?;
        scatter(&mut self.store, rs, &results[0..many]);
        values(0, &results[0..many])
    }

    // The arguments' elements go to the port as one message.
    fn send(&mut self, part: Part, port: u8, xs: &[u8], args: &mut [S::Item]) -> Answer
        requires few { length (cell_list xs.now) ≤ 4 }
        requires room { 4 ≤ length args.old }
        requires port { port < 16 }
        ensures does { Does S.Store S.Item.Element I.InstructionSet self.old self.new (λ k s. act k pass part.number (order.work (order.send port (cell_list xs.now))) s) result }
        ensures lender { S.Store.lender self.new.store ≡ S.Store.lender self.old.store }
    {
        let n = gather(&mut self.store, xs, args);
        self.queues.send(port, &args[0..n]);
        values(0, &args[0..n])
    }

    // The port's first message goes to the result cells.
    fn receive(&mut self, part: Part, port: u8, rs: &[u8], results: &mut [S::Item]) -> Answer
        requires room { 4 ≤ length results.old }
        requires fits { fits_of S.Store S.Item.Element self.old ≡ true }
        requires within { Within self.old.sheet.size (cell_list rs.now) }
        ensures does { Does S.Store S.Item.Element I.InstructionSet self.old self.new (λ k s. act k pass part.number (order.work (order.receive port (cell_list rs.now))) s) result }
        ensures lender { S.Store.lender self.new.store ≡ S.Store.lender self.old.store }
    {
        let taken = self.queues.receive(port, results);
        let many = taken.count;
        scatter(&mut self.store, rs, &results[0..many]);
        values(taken.missed, &results[0..many])
    }

    // What a command that passed the checks does. The scratch is no array of eight and of four here: eight elements of any kind at all are not
    // known to fit the memory.
    fn perform(
        &mut self,
        part: Part,
        command: Command,
        args: &mut [S::Item],
        results: &mut [S::Item],
    ) -> Answer
        requires few { Few command }
        requires args { 8 ≤ length args.old }
        requires results { 4 ≤ length results.old }
        requires fits { fits_of S.Store S.Item.Element self.old ≡ true }
        requires passed { (m : ℕ → S.Item) → check (making_of S.Item.Element I.InstructionSet self.old m) (is_open (turn_of self.old.turn)) (held_by (turn_of self.old.turn) part.number) part.number (order_of command) ≡ pass }
        ensures does { Does S.Store S.Item.Element I.InstructionSet self.old self.new (λ k s. act k pass part.number (order_of command.entry) s) result }
        ensures lender { S.Store.lender self.new.store ≡ S.Store.lender self.old.store }
    {
        match command {
            Command::Restore => self.restore(part),
            Command::Save => self.save(part),
            Command::Instruct {
                code,
                args: xs,
                results: rs,
            } => self.instruct(part, code, xs, rs, args, results),
            Command::Send { port, args: xs } => self.send(part, port, xs, args),
            Command::Receive { port, results: rs } => self.receive(part, port, rs, results),
        }
    }

    // The answer to a whole record, with scratch enough and store and sheet of one size.
    pub(super) fn answer_record(
        &mut self,
        bytes: &[u8; 32],
        args: &mut [S::Item],
        results: &mut [S::Item],
    ) -> Answer
        requires args { 8 ≤ length args.old }
        requires results { 4 ≤ length results.old }
        requires fits { fits_of S.Store S.Item.Element self.old ≡ true }
        ensures does { Does S.Store S.Item.Element I.InstructionSet self.old self.new (λ k s. record_step k bytes.now s) result }
        ensures lender { S.Store.lender self.new.store ≡ S.Store.lender self.old.store }
    {
        let command = decode(bytes)?;
        let part = Part::new(bytes[2]).ok_or(Refusal::Part)?;
        self.verdict(part, command)?;
        self.perform(part, command, args, results)
    }
}
