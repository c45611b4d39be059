//! The forms that hold no process, and the ends of forms whose constituents were read.
#![tactic(auto)]

mod close;
mod leaf;
mod left;

pub use close::{pattern_row_none, row_none, sequence_only_rest};
pub use leaf::{
    atom_ground, atom_nil, atom_word, declarations, dropped_word, empty_map, empty_map_pat, ground,
    left_end, name_any, name_bound, name_word, pairs_end, pat_any, pat_ground, pat_nil, pat_type,
    pat_word, remainder, rest_map_pat, same_drop, same_word, sequence_end, sequence_none,
};
pub use left::left_alone;
