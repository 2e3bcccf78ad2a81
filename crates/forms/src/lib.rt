// The forms by value, for code that is given one.
// The table that decides.
#![tactic(auto)]

#[derive(Clone, Copy)]
pub enum Form {
    // Plain UTF-8.
    Plain,
    // UTF-8 as SURRO widens it.
    Surro,
    // CESU-8.
    Cesu,
}
