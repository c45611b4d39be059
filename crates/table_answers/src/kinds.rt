//! Which table has a kind of lines.

/// A table, whose lines one crate answers.
#[derive(Clone, Copy)]
pub enum Table {
    Low,
    Terms,
    Stores,
    Rigs,
    Hubs,
}

/// The kinds of lines, each with its table.
const KINDS: [(&str, Table); 39] = [
    ("tokens", Table::Low),
    ("token-count", Table::Low),
    ("write-log", Table::Low),
    ("read-log", Table::Low),
    ("cuts-of-log", Table::Low),
    ("digest", Table::Low),
    ("seed", Table::Low),
    ("state", Table::Low),
    ("cuts-of-state", Table::Low),
    ("changes-of-state", Table::Low),
    ("code", Table::Terms),
    ("read", Table::Terms),
    ("height", Table::Terms),
    ("parts", Table::Terms),
    ("order", Table::Terms),
    ("shard", Table::Terms),
    ("group-key", Table::Terms),
    ("put", Table::Terms),
    ("unfold", Table::Terms),
    ("unfold-body", Table::Terms),
    ("value", Table::Terms),
    ("weighed", Table::Terms),
    ("alone", Table::Terms),
    ("print", Table::Terms),
    ("match", Table::Terms),
    ("code-again", Table::Terms),
    ("height-of-code", Table::Terms),
    ("cuts-of-code", Table::Terms),
    ("print-code", Table::Terms),
    ("store", Table::Stores),
    ("least", Table::Stores),
    ("meet", Table::Stores),
    ("groups", Table::Stores),
    ("uses", Table::Rigs),
    ("done", Table::Rigs),
    ("any-order", Table::Rigs),
    ("spread", Table::Hubs),
    ("one-shard", Table::Hubs),
    ("plain", Table::Hubs),
];

impl Table {
    /// The table that has a kind of lines.
    pub fn with(word: &str) -> Option<Table> {
        for (kind, table) in &KINDS {
            if *kind == word {
                return Some(*table);
            }
        }
        None
    }
}
