//! What the definition of the picture gives, in the words of the tables: which slots its numbers
//! count, which groups it lists, what its dots show, and that its text is that of one tree. There
//! is no program here, only definitions and laws.
#![tactic(auto)]

mod law;

pub use law::{
    coloured_pictures_are_trees, listed_groups_have_most, picture_is_a_tree, pictures_are_trees,
    pictures_of_sets_are_trees, slots_are_counted, slots_are_drawn, wide_groups_are_counted,
};
