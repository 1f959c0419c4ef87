// What stands before the shows: the options as far as they were read, and the word that is a setup or another option.
#[derive(Drop)]
pub(crate) struct Front {
    pub log: Option<String>,
    pub solo: Option<u8>,
    pub setup: String,
}
