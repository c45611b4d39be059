ghost use Rattle.std.specs.Prelude.{◌≡◌, [], IfOk};
ghost use Rattle.calculus.specs.Root.{root};
ghost use Rattle.radix_root.specs.Leaves.{groups_of, Keeps};
ghost use Rattle.checkpoint.specs.Kept.{AreKept};
ghost use Rattle.checkpoint.specs.Marks.{AreMarks};

use crate::groups::marked_tree;
use crate::marks::Mark;
use calculus::Digest;
use radix_root::RadixTree;
use space_row::Row;
use std::alloc::{AllocError, Global};
use std::marker::Model;

/// The rows that a run starts from or leaves, seen as their list, ascending in their codes.
///
/// Each row may be stored, no two have one id, and where no id is that of a built-in receiver the rows and the
/// built-in receivers allow no step. The tree of their groups and a mark of
/// each row are kept beside them.
pub struct Checkpoint {
    rows: Vec<Row>,
    tree: RadixTree,
    marks: Vec<Mark>,
}

impl Drop for Checkpoint {
    fn drop(self) {
        let Checkpoint {
            rows: _rows,
            tree: _tree,
            marks: _marks,
        } = self;
    }
}

/// All that a checkpoint keeps.
#[derive(Drop)]
pub struct Parts {
    pub rows: Vec<Row>,
    pub tree: RadixTree,
    pub marks: Vec<Mark>,
}

impl Model for Checkpoint {
    ghost use Rattle.std.specs.Prelude.{List};
    ghost use Rattle.calculus.specs.Rows.{Row as CalculusRow};
    ghost use Rattle.radix_root.specs.Leaves.{Keeps, groups_of};
    ghost use Rattle.checkpoint.specs.Kept.{AreKept};
    ghost use Rattle.checkpoint.specs.Marks.{AreMarks};

    ghost Value = { List CalculusRow };

    ghost use Rattle.std.specs.Coded.{coded_list};
    ghost use Rattle.space_row.specs.Values.{row_value_code};

    ghost coded = { coded_list row_value_code };

    ghost view = { λ a. a.rows.items };

    ghost invariant = { λ a. AreKept a.rows.items × Keeps a.tree (groups_of a.rows.items) × AreMarks a.marks.items a.rows.items };
}

impl Checkpoint {
    /// The checkpoint without rows.
    pub fn empty(alloc: Global) -> Checkpoint
        ensures { result ≡ [] }
    {
        Checkpoint {
            rows: Vec::new(alloc),
            tree: RadixTree::new(alloc),
            marks: Vec::new(alloc),
        }
    }

    /// The checkpoint of these rows. Want of memory is the one error.
    pub fn from_rows(alloc: Global, rows: Vec<Row>) -> Result<Checkpoint, AllocError>
        requires { AreKept rows.items }
        ensures { IfOk result (λ c. c ≡ rows.items) }
    {
        let (tree, marks) = marked_tree(alloc, rows.as_slice())?;
        Ok(Checkpoint { rows, tree, marks })
    }

    /// The checkpoint of these rows, whose groups the tree has, and whose marks these are.
    pub fn with_tree(rows: Vec<Row>, tree: RadixTree, marks: Vec<Mark>) -> Checkpoint
        requires kept { AreKept rows.items }
        requires tree { Keeps tree (groups_of rows.items) }
        requires marks { AreMarks marks.items rows.items }
        ensures { result ≡ rows.items }
    {
        Checkpoint { rows, tree, marks }
    }

    /// Its rows.
    pub fn rows(&self) -> &[Row]
        ensures is { result.now ≡ self.now }
        ensures kept { AreKept self.now }
    {
        self.rows.as_slice()
    }

    /// Its rows, given away.
    pub fn into_rows(self) -> Vec<Row>
        ensures is { result.items ≡ self }
        ensures kept { AreKept self }
    {
        let Checkpoint {
            rows,
            tree: _tree,
            marks: _marks,
        } = self;
        rows
    }

    /// All that it keeps, given away.
    pub fn into_parts(self) -> Parts
        ensures is { result.rows.items ≡ self }
        ensures kept { AreKept self }
        ensures tree { Keeps result.tree (groups_of self) }
        ensures marks { AreMarks result.marks.items self }
    {
        let Checkpoint { rows, tree, marks } = self;
        Parts { rows, tree, marks }
    }

    /// The root of its rows. No digest is made.
    pub fn root(&self) -> Digest
        ensures { result.0 ≡ root self.now }
    {
        self.tree.root()
    }
}
