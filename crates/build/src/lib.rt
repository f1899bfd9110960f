// Building: what a call that lays new cells does, in the order of SCOPE 4.2. Room is made for them, they are laid
// from `top` upward, and a register is set to them. For the calls, and for whoever else lays cells in a store.
#![tactic(auto)]

pub mod cells;
pub mod laying;
pub mod registers;
pub mod room;
