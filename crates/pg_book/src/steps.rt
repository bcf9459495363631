// The steps on a book's table, one kind a file.
mod draw;
mod join;
mod name;
mod peek;
mod split;

pub use draw::enter;
pub use join::take_in;
pub use name::register;
pub use peek::look;
pub use split::note_of;
