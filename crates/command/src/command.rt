// What a record asks of its part. What is borrowed are the record's argument and result cells, two bytes each.
// A code is a number, since its meaning is the set's.
#[derive(Clone, Copy)]
pub enum Command<'a> {
    Restore,
    Save,
    Instruct {
        code: u8,
        args: &'a [u8],
        results: &'a [u8],
    },
    Send {
        port: u8,
        args: &'a [u8],
    },
    Receive {
        port: u8,
        results: &'a [u8],
    },
}
