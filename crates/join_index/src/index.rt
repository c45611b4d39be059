// An index of groups.
ghost use Rattle.std.specs.Prelude.{◌≡◌, ◌≢◌, ◌<◌, ◌≤◌, ◌+◌, ◌-◌, ◌++◌, ◌∷◌, List, [], All, IfOk, OnErr, OnOk, filter, get_or, length, map, remove, set, vec_capacity};
ghost use Rattle.calculus.specs.Congruence.{congruent};
ghost use Rattle.join_index.specs.Groups.{Channels, IsChannel, but_last, firsts, holds, same_group, stands};
ghost use Rattle.join_index.specs.Index.{HasGroups, IsPlace, spare};
ghost use Rattle.join_index.specs.declared.index.Counted.{Counted};

use rho_term::Term;
use std::alloc::{AllocError, Global};
use std::marker::Model;
use term_order::cmp_terms;

/// The channels of a receive, seen as their list: closed processes with short codes.
#[derive(Drop)]
pub struct Group {
    channels: Vec<Term>,
}

impl Model for Group {
    ghost use Rattle.std.specs.Prelude.{All, List};
    ghost use Rattle.std.specs.Coded.{coded_list};
    ghost use Rattle.calculus.specs.Tree.{Tree, tree_code};
    ghost use Rattle.join_index.specs.Groups.{IsChannel};

    ghost Value = { List Tree };

    ghost coded = { coded_list tree_code };

    ghost view = { λ a. a.channels.items };

    ghost invariant = { λ a. All IsChannel a.channels.items };
}

impl Group {
    fn channels(&self) -> &[Term]
        ensures is { result.now ≡ self.now }
        ensures channels { All IsChannel self.now }
    {
        &self.channels
    }
}

/// A group, and how often it is there.
#[derive(Drop)]
pub struct Counted {
    pub group: Group,
    pub count: u64,
}

/// Groups of channels, with repeats, in the order in which they were added.
#[derive(Drop)]
pub struct JoinIndex {
    groups: Vec<Counted>,
    total: u64,
}

// Whether two channels are congruent.
fn same_channel(a: &Term, b: &Term) -> bool
    requires a { IsChannel a.now }
    requires b { IsChannel b.now }
    ensures { result ≡ congruent a.now b.now }
{
    cmp_terms(a, b).is_eq()
}

// Whether two groups of as many channels have the same, from this place on.
fn same_channels(a: &[Term], b: &[Term]) -> bool
    requires a { All IsChannel a.now }
    requires b { All IsChannel b.now }
    requires length { length a.now ≡ length b.now }
    ensures { result ≡ same_group a.now b.now }
{
    for i in 0..a.len() {
        if !same_channel(&a[i], &b[i]) {
            return false;
        }
    }
    true
}

// Whether two groups have the same channels.
fn same_group(a: &[Term], b: &[Term]) -> bool
    requires a { All IsChannel a.now }
    requires b { All IsChannel b.now }
    ensures { result ≡ same_group a.now b.now }
{
    a.len() == b.len() && same_channels(a, b)
}

// Whether a group holds a channel.
fn holds(channel: &Term, group: &[Term]) -> bool
    requires channel { IsChannel channel.now }
    requires group { All IsChannel group.now }
    ensures { result ≡ holds channel.now group.now }
{
    for other in group {
        if same_channel(channel, other) {
            return true;
        }
    }
    false
}

// The place of a group among those of an index, where it is one of them.
fn place_of(groups: &[Counted], group: &[Term]) -> Option<usize>
    requires { All IsChannel group.now }
    ensures { IsPlace group.now groups.now result }
{
    for i in 0..groups.len() {
        if same_group(group, groups[i].group.channels()) {
            return Some(i);
        }
    }
    None
}

// Copies of channels.
fn copy_channels(alloc: Global, channels: &[Term]) -> Result<Vec<Term>, AllocError>
    ensures { IfOk result (λ v. v.items ≡ channels.now) }
{
    let mut copies = Vec::new(alloc);
    for channel in channels {
        copies.push(channel.copy(alloc)?)?;
    }
    Ok(copies)
}

// One less of the group at this place, which goes where it was the last.
fn take_one(groups: &mut Vec<Counted>, i: usize)
    requires { i < length groups.old.items }
    ensures last { (e : Counted) → e ≡ get_or groups.old.items i e → e.count ≡ 1 → groups.new.items ≡ remove groups.old.items i }
    ensures more { (e : Counted) → e ≡ get_or groups.old.items i e → e.count ≢ 1 → groups.new.items ≡
        set groups.old.items i (record { group = e.group; count = e.count - 1 }) }
    ensures capacity { vec_capacity groups.new ≡ vec_capacity groups.old }
    ensures fewer { length groups.new.items ≤ length groups.old.items }
{
    if groups[i].count == 1 {
        groups.remove(i);
    } else {
        groups[i].count = groups[i].count.saturating_sub(1);
    }
}

// Those of these groups that hold a channel.
fn holding(alloc: Global, groups: &[Counted], channel: &Term) -> Result<Vec<Vec<Term>>, AllocError>
    requires channel { IsChannel channel.now }
    ensures { IfOk result (λ v. map (λ g. g.items) v.items ≡ filter (holds channel.now) (map (λ e. e.group) groups.now)) }
{
    let mut found = Vec::new(alloc);
    for counted in groups {
        if holds(channel, counted.group.channels()) {
            found.push(copy_channels(alloc, counted.group.channels())?)?;
        }
    }
    Ok(found)
}

impl JoinIndex {
    /// The index of no groups.
    pub fn new(alloc: Global) -> JoinIndex
        ensures { HasGroups result [] }
    {
        JoinIndex {
            groups: Vec::new(alloc),
            total: 0,
        }
    }

    /// Makes room for one group, where there is none. Want of memory is the one error.
    pub fn make_room(&mut self) -> Result<(), AllocError>
        ensures room { OnOk result (1 ≤ spare self.new) }
        ensures same { (gs : List Channels) → HasGroups self.old gs → HasGroups self.new gs }
    {
        if self.total == u64::MAX {
            return Err(AllocError);
        }
        self.groups.reserve(1)
    }

    /// Adds a group. It takes no memory.
    pub fn put(&mut self, group: Vec<Term>)
        requires room { 1 ≤ spare self.old }
        requires channels { All IsChannel group.items }
        ensures groups { (gs : List Channels) → HasGroups self.old gs → HasGroups self.new (gs ++ group.items ∷ []) }
        ensures spare { spare self.old ≤ spare self.new + 1 }
    {
        self.total += 1;
        match place_of(&self.groups, &group) {
            Some(i) => self.groups[i].count = self.groups[i].count.saturating_add(1),
            None => {
                let added = self.groups.push(Counted {
                    group: Group { channels: group },
                    count: 1,
                });
                prove!(added.is_ok());
            }
        }
    }

    /// Adds a group. Want of memory is the one error, and then the groups are as they were.
    pub fn add(&mut self, alloc: Global, group: &[Term]) -> Result<(), AllocError>
        requires channels { All IsChannel group.now }
        ensures groups { OnOk result ((gs : List Channels) → HasGroups self.old gs → HasGroups self.new (gs ++ group.now ∷ [])) }
        ensures failed { OnErr result ((gs : List Channels) → HasGroups self.old gs → HasGroups self.new gs) }
    {
        let copies = copy_channels(alloc, group)?;
        self.make_room()?;
        self.put(copies);
        Ok(())
    }

    /// Takes out the last of the groups that are equal to this one, and answers whether there was one. It takes no memory.
    pub fn remove(&mut self, group: &[Term]) -> bool
        requires channels { All IsChannel group.now }
        ensures groups { (gs : List Channels) → HasGroups self.old gs → HasGroups self.new (but_last group.now gs) }
        ensures there { (gs : List Channels) → HasGroups self.old gs → result ≡ stands group.now gs }
        ensures spare { spare self.old ≤ spare self.new }
    {
        match place_of(&self.groups, group) {
            None => false,
            Some(i) => {
                take_one(&mut self.groups, i);
                self.total = self.total.saturating_sub(1);
                true
            }
        }
    }

    /// The groups that hold a channel, each once, in the order in which they were first added. Want of memory is the one error.
    pub fn groups_of(&self, alloc: Global, channel: &Term) -> Result<Vec<Vec<Term>>, AllocError>
        requires channel { IsChannel channel.now }
        ensures { (gs : List Channels) → HasGroups self.now gs →
            IfOk result (λ v. map (λ g. g.items) v.items ≡ filter (holds channel.now) (firsts gs)) }
    {
        holding(alloc, &self.groups, channel)
    }
}
