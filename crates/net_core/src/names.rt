// Names of things: numbers that name, and texts.
mod numbers;
mod text;

pub use numbers::{Guid, Handle, Player};
pub use text::Text;
