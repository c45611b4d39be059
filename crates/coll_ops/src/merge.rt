// Lists of members or pairs that ascend in their keys, merged. Of equal keys the last is kept.
ghost use Rattle.std.specs.Prelude.{◌≡◌, ◌++◌, false, cond, drop, filter, not, All};
ghost use Rattle.calculus.specs.Code.{code};
ghost use Rattle.calculus.specs.Operators.{of_bool};
ghost use Rattle.value_ops.specs.Answers.{IsOperand};
ghost use Rattle.coll_ops.specs.Keys.{Ascend, has_key, once_each};
ghost use Rattle.coll_ops.specs.Merging.{IsSought, PutsBelow, ends, put_last, put_all};

use crate::keyed::Keyed;
use crate::maker::Maker;
use calculus::Ground;
use rho_term::{Part, Term};
use term_order::cmp_terms;

/// Both lists, ascending in the keys; of equal keys the last is kept, those on the right after those on
/// the left. It takes about one comparison for each item.
pub(crate) fn merged<T: Keyed>(maker: &mut Maker, left: &[T], right: &[T]) -> Vec<T>
    ensures { maker.new.failed ≡ false → (maker.old.failed ≡ false) × (Ascend T.key_tree left.now → Ascend T.key_tree right.now →
        result.items ≡ once_each (λ x. code (T.key_tree x)) (left.now ++ right.now)) }
{
    let mut all = Vec::new(maker.alloc);
    let mut next = 0;
    for item in left {
        next = put_below(maker, &mut all, right, next, item.key());
        put_copy(maker, &mut all, item);
    }
    put_rest(maker, &mut all, right, next);
    all
}

/// The items whose keys are none of these, ascending. It takes about one comparison for each item and each
/// key.
pub(crate) fn without<T: Keyed>(maker: &mut Maker, items: &[T], gone: &[Term]) -> Vec<T>
    ensures { maker.new.failed ≡ false → (maker.old.failed ≡ false) × (Ascend T.key_tree items.now → Ascend (λ t. t) gone.now →
        result.items ≡ once_each (λ x. code (T.key_tree x)) (filter (λ x. not (has_key code (code (T.key_tree x)) gone.now)) items.now)) }
{
    let mut kept = Vec::new(maker.alloc);
    let mut next = 0;
    for item in items {
        let (place, is_gone) = find_key(gone, next, item.key());
        put_unless(maker, &mut kept, item, is_gone);
        next = place;
    }
    kept
}

/// Of ascending items with equal keys the last.
pub(crate) fn last_of_each<T: Keyed>(maker: &mut Maker, items: Vec<T>) -> Vec<T>
    ensures { maker.new.failed ≡ false → (maker.old.failed ≡ false) × (Ascend T.key_tree items.items →
        result.items ≡ once_each (λ x. code (T.key_tree x)) items.items) }
{
    let mut kept = Vec::new(maker.alloc);
    for item in items {
        put(maker, &mut kept, item);
    }
    kept
}

/// Whether one of these items, which ascend in their keys, has this key, as a Bool.
pub(crate) fn contains<T: Keyed>(maker: &mut Maker, items: &[T], key: &Term) -> Term
    ensures { maker.new.failed ≡ false → Ascend T.key_tree items.now → IsOperand key.now →
        result ≡ of_bool (has_key (λ x. code (T.key_tree x)) (code key.now) items.now) }
{
    let (_, found) = find_key(items, 0, key);
    maker.value(Part::Ground(Ground::Bool(found)))
}

/// The place of the first item, from this place on, whose key is not less, and whether it has this key;
/// the number of items where there is none.
pub(crate) fn find_key<T: Keyed>(items: &[T], start: usize, key: &Term) -> (usize, bool)
    ensures { All (λ x. IsOperand (T.key_tree x)) items.now → IsOperand key.now →
        IsSought T.key_tree key.now items.now start result.0 result.1 }
{
    for next in start..items.len() {
        let order = cmp_terms(items[next].key(), key);
        if order.is_ge() {
            return (next, order.is_eq());
        }
    }
    (items.len(), false)
}

/// Puts an item at the end, in place of the last where that has its key.
pub(crate) fn put<T: Keyed>(maker: &mut Maker, kept: &mut Vec<T>, item: T)
    ensures { maker.new.failed ≡ false → (maker.old.failed ≡ false) × (All (λ x. IsOperand (T.key_tree x)) kept.old.items → IsOperand (T.key_tree item) →
        kept.new.items ≡ put_last (λ x. code (T.key_tree x)) kept.old.items item) }
{
    if ends_with(kept.as_slice(), item.key()) {
        let _last = kept.pop();
    }
    maker.add(kept, item);
}

// Whether the last item has this key.
fn ends_with<T: Keyed>(items: &[T], key: &Term) -> bool
    ensures { All (λ x. IsOperand (T.key_tree x)) items.now → IsOperand key.now →
        result ≡ ends (λ x. code (T.key_tree x)) (code key.now) items.now }
{
    if items.is_empty() {
        return false;
    }
    cmp_terms(items[items.len() - 1].key(), key).is_eq()
}

// Puts a copy of an item at the end, in place of the last where that has its key.
fn put_copy<T: Keyed>(maker: &mut Maker, kept: &mut Vec<T>, item: &T)
    ensures { maker.new.failed ≡ false → (maker.old.failed ≡ false) × (All (λ x. IsOperand (T.key_tree x)) kept.old.items → IsOperand (T.key_tree item.now) →
        kept.new.items ≡ put_last (λ x. code (T.key_tree x)) kept.old.items item.now) }
{
    let copy = item.copied(maker);
    put(maker, kept, copy);
}

// The same, unless it is gone.
fn put_unless<T: Keyed>(maker: &mut Maker, kept: &mut Vec<T>, item: &T, gone: bool)
    ensures { maker.new.failed ≡ false → (maker.old.failed ≡ false) × (All (λ x. IsOperand (T.key_tree x)) kept.old.items → IsOperand (T.key_tree item.now) →
        kept.new.items ≡ cond gone kept.old.items (put_last (λ x. code (T.key_tree x)) kept.old.items item.now)) }
{
    if gone {
        return;
    }
    put_copy(maker, kept, item);
}

// Puts the items from this place on whose keys are less at the end, and tells the place of the next.
fn put_below<T: Keyed>(
    maker: &mut Maker,
    all: &mut Vec<T>,
    items: &[T],
    start: usize,
    key: &Term,
) -> usize
    ensures { maker.new.failed ≡ false → (maker.old.failed ≡ false) × (All (λ x. IsOperand (T.key_tree x)) all.old.items → All (λ x. IsOperand (T.key_tree x)) items.now → IsOperand key.now →
        PutsBelow T.key_tree key.now items.now start result all.old.items all.new.items) }
{
    for next in start..items.len() {
        let item = &items[next];
        if cmp_terms(item.key(), key).is_ge() {
            return next;
        }
        put_copy(maker, all, item);
    }
    items.len()
}

// Puts the items from this place on at the end.
fn put_rest<T: Keyed>(maker: &mut Maker, all: &mut Vec<T>, items: &[T], start: usize)
    ensures { maker.new.failed ≡ false → (maker.old.failed ≡ false) × (All (λ x. IsOperand (T.key_tree x)) all.old.items → All (λ x. IsOperand (T.key_tree x)) items.now →
        all.new.items ≡ put_all (λ x. code (T.key_tree x)) all.old.items (drop start items.now)) }
{
    for next in start..items.len() {
        put_copy(maker, all, &items[next]);
    }
}
