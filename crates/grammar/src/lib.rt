// The account key of a record: equal in all records of a statement, and the account's name in the journal.
#![tactic(auto)]

#[repr(C)]
#[derive(Clone, Copy, Default)]
pub struct Key {
    pub bank: [u8; 5],
    pub branch: [u8; 5],
    pub currency: [u8; 3],
    pub decimals: u8,
    pub account: [u8; 11],
}
