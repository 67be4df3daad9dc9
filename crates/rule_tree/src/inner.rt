// The work behind the public calls. What these functions require, the public calls have tested.
pub mod change;
pub mod counts;
pub mod cubes;
pub mod equal;
pub mod grown;
pub mod leaf;
pub mod links;
pub mod rules;
pub mod walk;
