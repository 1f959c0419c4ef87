ghost use Rattle.std.specs.Prelude.{◌≡◌, ◌≤◌, true, length, if◌then◌else◌, nat_eq, slice_index};
ghost use Rattle.command.specs.declared.malformed.Malformed.TheVariants as malformed;
ghost use Rattle.command.specs.declared.refusal.Refusal.TheVariants as refusal;
ghost use Rattle.reply.specs.Told.{told};
ghost use Rattle.isolation.specs.Request.{Request, roomy};
ghost use Rattle.isolation.specs.Machine.{host_step};
ghost use Rattle.host.specs.Parts.{request_of};
ghost use Rattle.host.specs.Logged.{record_with};
ghost use Rattle.host.specs.Hosted.{fits_of};
ghost use Rattle.host.specs.Steps.{Does};
ghost use Rattle.host.specs.Commands.{Commanded, Cleared};

use super::Host;
use command::log::{Answer, LogRecord};
use command::malformed::Malformed;
use command::refusal::Refusal;
use element::clear::clear;
use element::element::Element;
use instruction::set::InstructionSet;
use store::store::Store;

// The log record of an answer; part and kind are zero where the bytes are no record.
fn logged(place: u32, bytes: &[u8], answer: Answer) -> LogRecord
    ensures { result ≡ record_with place (if nat_eq (length bytes.now) 32 then slice_index bytes.now 2 else 0) (if nat_eq (length bytes.now) 32 then slice_index bytes.now 3 else 0) (told answer) }
{
    if bytes.len() == 32 {
        return LogRecord::new(place, bytes[2], bytes[3], answer);
    }
    LogRecord::new(place, 0, 0, answer)
}

// What is refused where scratch is too short: 6, but 1 first.
fn short_of(bytes: &[u8]) -> Refusal
    ensures { result ≡ (if nat_eq (length bytes.now) 32 then refusal.Scratch else refusal.Malformed malformed.Length) }
{
    if bytes.len() == 32 {
        return Refusal::Scratch;
    }
    Refusal::Malformed(Malformed::Length)
}

impl<S: Store, I: InstructionSet<S::Item>> Host<S, I> {
    // The answer, with scratch enough; whatever else the request is.
    fn answer(&mut self, bytes: &[u8], args: &mut [S::Item], results: &mut [S::Item]) -> Answer
        requires args { 8 ≤ length args.old }
        requires results { 4 ≤ length results.old }
        ensures does { (c : Request) → c.bytes ≡ bytes.now → roomy c ≡ true → Does S.Store S.Item.Element I.InstructionSet self.old self.new (λ k s. host_step (fits_of S.Store S.Item.Element self.old) k c s) result }
        ensures lender { S.Store.lender self.new.store ≡ S.Store.lender self.old.store }
    {
        let Some(bytes) = bytes.as_array::<32>() else {
            return Err(Refusal::Malformed(Malformed::Length));
        };
        if self.store.len() != self.sheet.size() {
            return Err(Refusal::Size);
        }
        self.answer_record(bytes, args, results)
    }

    // One command: any bytes, a place to be logged under, and scratch for eight arguments and four results. Its record is written in place.
    pub fn command_into(
        &mut self,
        place: u32,
        bytes: &[u8],
        args: &mut [S::Item],
        results: &mut [S::Item],
        log: &mut LogRecord,
    )
        ensures commanded { Commanded S.Store S.Item.Element I.InstructionSet self.old self.new (request_of place bytes.now args.old results.old) log.new }
        ensures cleared { Cleared S.Item.Element.blank (request_of place bytes.now args.old results.old) args.old args.new results.old results.new }
        ensures lender { S.Store.lender self.new.store ≡ S.Store.lender self.old.store }
    {
        if args.len() < 8 || results.len() < 4 {
            *log = logged(place, bytes, Err(short_of(bytes)));
            return;
        }
        let answer = self.answer(bytes, args, results);
        clear(args);
        clear(results);
        *log = logged(place, bytes, answer);
    }

    // One command; its record is given back.
    pub fn command(
        &mut self,
        place: u32,
        bytes: &[u8],
        args: &mut [S::Item],
        results: &mut [S::Item],
    ) -> LogRecord
        ensures commanded { Commanded S.Store S.Item.Element I.InstructionSet self.old self.new (request_of place bytes.now args.old results.old) result }
        ensures cleared { Cleared S.Item.Element.blank (request_of place bytes.now args.old results.old) args.old args.new results.old results.new }
        ensures lender { S.Store.lender self.new.store ≡ S.Store.lender self.old.store }
    {
        let mut log = LogRecord::new(place, 0, 0, Ok(None));
        self.command_into(place, bytes, args, results, &mut log);
        log
    }
}
