use command::refusal::Refusal;
use instruction::set::InstructionSet;
use port::ports::Ports;
use queue::queues::Queues;
use sheet::sheet::Sheet;
use store::store::Store;
use transfer::row::SaveRow;

mod act;
mod execute;
mod keeping;
mod making;

// A host: a cell store and an instruction set of one kind of element, the sheet and the port sets, and the state that the parts
// share. It holds all of it by value.
#[derive(Drop)]
pub struct Host<S: Store, I: InstructionSet<S::Item>> {
    store: S,
    set: I,
    sheet: Sheet,
    ports: Ports,
    rows: [SaveRow; 8],
    // A byte and no `Part`: C hands over any byte as the holder.
    turn: Option<u8>,
    queues: Queues,
}

// What making gives: a host always, and a refusal where store and sheet differ in size. It is no Result, since both are given.
#[derive(Drop)]
pub struct Made<S: Store, I: InstructionSet<S::Item>> {
    pub host: Host<S, I>,
    pub refusal: Option<Refusal>,
}

// What a host keeps beside its store and its set, so that it can go on later: the sheet, the port sets, the save rows, the queues, and the
// turn, as whether it is held and by which part. A caller in another language holds it, so it has no Option.
#[repr(C)]
#[derive(Clone, Copy)]
pub struct Kept {
    sheet: Sheet,
    ports: Ports,
    rows: [SaveRow; 8],
    queues: Queues,
    held: bool,
    holder: u8,
}
