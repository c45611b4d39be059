//! The processes, names, binds, cases and declarations that the productions make of their constituents.
ghost use Rattle.calculus.specs.Meaning.{bind_written, case_written, declared, ground_label, name_written, pat_written, proc_written};
ghost use Rattle.calculus.specs.Tree.{int};
ghost use Rattle.grammar.specs.Values.{name_of, bind_of, bundle_of, case_of, contract_of, drop_of, ground_of, if_of, list_of, map_of, match_of, method_of, new_of, nil, operation, par_of, processes, quote_of, receive_of, send_of, set_of, tuple_of, unary_of, variable_of};
ghost use Rattle.grammar.specs.declared.fault.Fault.TheVariants.{NoMemory};
ghost use Rattle.form_parts.specs.Forms.{HasTree, left_written, of_left, of_name, of_proc, pairs_written, row_written};
ghost use Rattle.std.specs.Prelude.{◌≡◌, ◌+◌, ◌<◌, ◌≤◌, ◌-◌, ◌^◌, pos, neg_ℤ, ◌∷◌, ◌++◌, [], IfOk, MatchResult, map, max, string_bytes, true, false};

use calculus::{BinaryOp, Bind, Case, Decl, Ground, Kind, Name, Pat, Proc, Rights, UnaryOp};
use form_parts::part::{Left, Part};
use form_parts::parts;
use grammar::Fault;
use std::alloc::Global;

/// Parts in parallel: one part is itself.
pub fn composed(mut parts: Part<Vec<Proc>>) -> Part<Proc>
    ensures tree { proc_written result.value ≡ par_of processes (map proc_written parts.value.items) }
    ensures height { result.height ≡ parts.height }
{
    let height = parts.height;
    if parts.value.len() == 1 {
        if let Some(only) = parts.value.pop() {
            return Part {
                value: only,
                height,
            };
        }
    }
    Part {
        value: Proc::Par(parts.value),
        height,
    }
}

/// A tuple of a first member and those of a row.
pub fn tuple(first: Part<Proc>, row: Part<Vec<Proc>>) -> Result<Part<Proc>, Fault>
    requires first { first.height + 1 < 2 ^ 32 }
    requires row { row.height + 1 < 2 ^ 32 }
    ensures tree { HasTree proc_written result (tuple_of processes (proc_written first.value) (row_written row.value)) }
    ensures height { IfOk result (λ p. p.height ≡ max first.height row.height + 1) }
{
    let height = first.height.max(row.height) + 1;
    let mut members = row.value;
    members.insert(0, first.value)?;
    Ok(Part {
        value: Proc::Tuple(members),
        height,
    })
}

/// `new` of these names.
pub fn new_process(alloc: Global, names: Vec<Decl>, body: Part<Proc>) -> Result<Part<Proc>, Fault>
    requires body { body.height + 1 < 2 ^ 32 }
    ensures tree { HasTree proc_written result (new_of (map declared names.items) (proc_written body.value)) }
    ensures height { IfOk result (λ p. p.height ≡ body.height + 1) }
{
    let height = body.height + 1;
    let body = Box::new(alloc, body.value)?;
    Ok(Part {
        value: Proc::New { names, body },
        height,
    })
}

/// A receive.
pub fn receive(
    alloc: Global,
    kind: Kind,
    binds: Part<Vec<Bind>>,
    body: Part<Proc>,
) -> Result<Part<Proc>, Fault>
    requires binds { binds.height + 1 < 2 ^ 32 }
    requires body { body.height + 1 < 2 ^ 32 }
    ensures tree { HasTree proc_written result (receive_of kind (map bind_written binds.value.items) (proc_written body.value)) }
    ensures height { IfOk result (λ p. p.height ≡ max binds.height body.height + 1) }
{
    let height = binds.height.max(body.height) + 1;
    let body = Box::new(alloc, body.value)?;
    Ok(Part {
        value: Proc::Receive {
            kind,
            binds: binds.value,
            body,
        },
        height,
    })
}

/// A contract, which is a persistent receive.
pub fn contract(
    alloc: Global,
    name: Part<Name>,
    left: Part<Left>,
    body: Part<Proc>,
) -> Result<Part<Proc>, Fault>
    requires name { name.height + 1 < 2 ^ 32 }
    requires left { left.height + 1 < 2 ^ 32 }
    requires body { body.height + 1 < 2 ^ 32 }
    ensures tree { HasTree proc_written result (contract_of (name_written name.value) (left_written left.value) (proc_written body.value)) }
    ensures height { IfOk result (λ p. p.height ≡ max (max name.height left.height) body.height + 1) }
{
    let height = name.height.max(left.height).max(body.height) + 1;
    let bind = Bind {
        pats: left.value.pats,
        rest: left.value.rest,
        channel: name.value,
    };
    let binds = match parts::alone(alloc, bind) {
        Ok(binds) => binds,
        Err(fault) => return parts::give_up(body, fault),
    };
    let body = Box::new(alloc, body.value)?;
    Ok(Part {
        value: Proc::Receive {
            kind: Kind::Persistent,
            binds,
            body,
        },
        height,
    })
}

/// A bundle.
pub fn bundle(alloc: Global, rights: Rights, body: Part<Proc>) -> Result<Part<Proc>, Fault>
    requires body { body.height + 1 < 2 ^ 32 }
    ensures tree { HasTree proc_written result (bundle_of processes rights (proc_written body.value)) }
    ensures height { IfOk result (λ p. p.height ≡ body.height + 1) }
{
    let height = body.height + 1;
    let body = Box::new(alloc, body.value)?;
    Ok(Part {
        value: Proc::Bundle { rights, body },
        height,
    })
}

/// A `match`, where this is the greatest height of its constituents.
pub fn matches(alloc: Global, target: Proc, cases: Part<Vec<Case>>) -> Result<Part<Proc>, Fault>
    requires { cases.height + 1 < 2 ^ 32 }
    ensures tree { HasTree proc_written result (match_of (proc_written target) (map case_written cases.value.items)) }
    ensures height { IfOk result (λ p. p.height ≡ cases.height + 1) }
{
    let target = Box::new(alloc, target)?;
    Ok(Part {
        value: Proc::Match {
            target,
            cases: cases.value,
        },
        height: cases.height + 1,
    })
}

/// An `if`, which is a `match` on true and false.
pub fn choice(
    alloc: Global,
    condition: Part<Proc>,
    yes: Part<Proc>,
    no: Part<Proc>,
) -> Result<Part<Proc>, Fault>
    requires condition { condition.height + 1 < 2 ^ 32 }
    requires yes { yes.height + 1 < 2 ^ 32 }
    requires no { no.height + 1 < 2 ^ 32 }
    ensures tree { HasTree proc_written result (if_of (proc_written condition.value) (proc_written yes.value) (proc_written no.value)) }
    ensures height { IfOk result (λ p. p.height ≡ max (max condition.height yes.height) no.height + 1) }
{
    let height = condition.height.max(yes.height).max(no.height) + 1;
    let yes = Case {
        pat: Pat::Ground(Ground::Bool(true)),
        body: yes.value,
    };
    let no = Case {
        pat: Pat::Ground(Ground::Bool(false)),
        body: no.value,
    };
    let cases = match parts::two(alloc, yes, no) {
        Ok(cases) => cases,
        Err(fault) => return parts::give_up(condition, fault),
    };
    let target = Box::new(alloc, condition.value)?;
    Ok(Part {
        value: Proc::Match { target, cases },
        height,
    })
}

/// An operator between two operands.
pub fn operation(
    alloc: Global,
    op: BinaryOp,
    left: Part<Proc>,
    right: Part<Proc>,
) -> Result<Part<Proc>, Fault>
    requires left { left.height + 1 < 2 ^ 32 }
    requires right { right.height + 1 < 2 ^ 32 }
    ensures tree { HasTree proc_written result (operation op (of_proc left) (of_proc right)).tree }
    ensures height { IfOk result (λ p. p.height ≡ max left.height right.height + 1) }
{
    let height = left.height.max(right.height) + 1;
    let (left, right) = parts::boxed_two(alloc, left.value, right.value)?;
    Ok(Part {
        value: Proc::Binary { op, left, right },
        height,
    })
}

/// An operator before its operand.
pub fn unary(alloc: Global, op: UnaryOp, arg: Part<Proc>) -> Result<Part<Proc>, Fault>
    requires arg { arg.height + 1 < 2 ^ 32 }
    ensures tree { HasTree proc_written result (unary_of op (proc_written arg.value)) }
    ensures height { IfOk result (λ p. p.height ≡ arg.height + 1) }
{
    let height = arg.height + 1;
    let arg = Box::new(alloc, arg.value)?;
    Ok(Part {
        value: Proc::Unary { op, arg },
        height,
    })
}

/// A method call.
pub fn method(
    alloc: Global,
    name: String,
    target: Part<Proc>,
    args: Part<Vec<Proc>>,
) -> Result<Part<Proc>, Fault>
    requires target { target.height + 1 < 2 ^ 32 }
    requires args { args.height + 1 < 2 ^ 32 }
    ensures tree { HasTree proc_written result (method_of (string_bytes name) (proc_written target.value) (row_written args.value)) }
    ensures height { IfOk result (λ p. p.height ≡ max target.height args.height + 1) }
{
    let height = target.height.max(args.height) + 1;
    let target = Box::new(alloc, target.value)?;
    Ok(Part {
        value: Proc::Method {
            name,
            target,
            args: args.value,
        },
        height,
    })
}

/// A variable.
pub fn variable(name: String) -> Part<Proc>
    ensures tree { proc_written result.value ≡ variable_of (string_bytes name) }
    ensures height { result.height ≡ 0 }
{
    Part {
        height: 0,
        value: Proc::Var(name),
    }
}

/// A ground value.
pub fn ground(value: Ground) -> Part<Proc>
    ensures tree { proc_written result.value ≡ ground_of processes (ground_label value) }
    ensures height { result.height ≡ 0 }
{
    Part {
        height: 0,
        value: Proc::Ground(value),
    }
}

/// A send.
pub fn send(channel: Part<Name>, args: Part<Vec<Proc>>, persistent: bool) -> Part<Proc>
    requires channel { channel.height + 1 < 2 ^ 32 }
    requires args { args.height + 1 < 2 ^ 32 }
    ensures tree { proc_written result.value ≡ send_of processes persistent (name_written channel.value) (row_written args.value) }
    ensures height { result.height ≡ max channel.height args.height + 1 }
{
    Part {
        height: channel.height.max(args.height) + 1,
        value: Proc::Send {
            channel: channel.value,
            args: args.value,
            persistent,
        },
    }
}

/// A list.
pub fn list(row: Part<Vec<Proc>>) -> Part<Proc>
    requires row { row.height + 1 < 2 ^ 32 }
    ensures tree { proc_written result.value ≡ list_of (row_written row.value) }
    ensures height { result.height ≡ row.height + 1 }
{
    Part {
        height: row.height + 1,
        value: Proc::List(row.value),
    }
}

/// A set.
pub fn set(row: Part<Vec<Proc>>) -> Part<Proc>
    requires row { row.height + 1 < 2 ^ 32 }
    ensures tree { proc_written result.value ≡ set_of (row_written row.value) }
    ensures height { result.height ≡ row.height + 1 }
{
    Part {
        height: row.height + 1,
        value: Proc::Set(row.value),
    }
}

/// A map.
pub fn map(pairs: Part<Vec<(Proc, Proc)>>) -> Part<Proc>
    requires pairs { pairs.height + 1 < 2 ^ 32 }
    ensures tree { proc_written result.value ≡ map_of (pairs_written pairs.value.items) }
    ensures height { result.height ≡ pairs.height + 1 }
{
    Part {
        height: pairs.height + 1,
        value: Proc::Map(pairs.value),
    }
}

/// A bind.
pub fn bind(left: Part<Left>, channel: Part<Name>) -> Part<Bind>
    ensures tree { bind_written result.value ≡ (bind_of (of_left left) (of_name channel)).tree }
    ensures height { result.height ≡ max left.height channel.height }
{
    Part {
        height: left.height.max(channel.height),
        value: Bind {
            pats: left.value.pats,
            rest: left.value.rest,
            channel: channel.value,
        },
    }
}

/// What stands in a block or parentheses.
pub fn opened(inner: Part<Proc>) -> Part<Proc>
    requires inner { inner.height + 1 < 2 ^ 32 }
    ensures tree { proc_written result.value ≡ proc_written inner.value }
    ensures height { result.height ≡ inner.height + 1 }
{
    Part {
        height: inner.height + 1,
        value: inner.value,
    }
}

/// No members.
pub fn no_members(alloc: Global) -> Part<Vec<Proc>>
    ensures tree { map proc_written result.value.items ≡ [] }
    ensures height { result.height ≡ 0 }
{
    Part {
        value: Vec::new(alloc),
        height: 0,
    }
}

/// A quoted process.
pub fn quote(alloc: Global, quoted: Part<Proc>) -> Result<Part<Name>, Fault>
    ensures tree { HasTree name_written result (quote_of (proc_written quoted.value)) }
    ensures height { IfOk result (λ p. p.height ≡ quoted.height) }
{
    let value = Box::new(alloc, quoted.value)?;
    Ok(Part {
        value: Name::Quote(value),
        height: quoted.height,
    })
}

/// A variable as a name.
pub fn channel(name: String) -> Part<Name>
    ensures tree { name_written result.value ≡ name_of (string_bytes name) }
    ensures height { result.height ≡ 0 }
{
    Part {
        height: 0,
        value: Name::Var(name),
    }
}

/// The process that a variable quotes.
pub fn dropped_word(name: String) -> Part<Proc>
    ensures tree { proc_written result.value ≡ drop_of (name_of (string_bytes name)) }
    ensures height { result.height ≡ 0 }
{
    Part {
        height: 0,
        value: Proc::Drop(Name::Var(name)),
    }
}

/// The process that a quoted process quotes.
pub fn dropped_quote(name: Part<Name>) -> Part<Proc>
    requires name { name.height + 1 < 2 ^ 32 }
    ensures tree { proc_written result.value ≡ drop_of (name_written name.value) }
    ensures height { result.height ≡ name.height + 1 }
{
    Part {
        height: name.height + 1,
        value: Proc::Drop(name.value),
    }
}

/// `Nil`
pub fn nil(alloc: Global) -> Part<Proc>
    ensures tree { proc_written result.value ≡ nil }
    ensures height { result.height ≡ 0 }
{
    Part {
        height: 0,
        value: Proc::Par(Vec::new(alloc)),
    }
}

/// The empty map.
pub fn empty_map(alloc: Global) -> Part<Proc>
    ensures tree { proc_written result.value ≡ map_of [] }
    ensures height { result.height ≡ 1 }
{
    Part {
        height: 1,
        value: Proc::Map(Vec::new(alloc)),
    }
}

/// A case.
pub fn case(pat: Part<Pat>, body: Part<Proc>) -> Part<Case>
    ensures tree { case_written result.value ≡ case_of (pat_written pat.value) (proc_written body.value) }
    ensures height { result.height ≡ max pat.height body.height }
{
    Part {
        height: pat.height.max(body.height),
        value: Case {
            pat: pat.value,
            body: body.value,
        },
    }
}

/// One more declared name.
pub fn declare(names: Vec<Decl>, next: Decl) -> Result<Vec<Decl>, Fault>
    ensures { MatchResult result (λ ds. ds.items ≡ names.items ++ next ∷ []) (λ e. e ≡ NoMemory) }
{
    let mut all = names;
    all.push(next)?;
    Ok(all)
}

/// No names.
pub fn no_names(alloc: Global) -> Vec<Decl>
    ensures { map declared result.items ≡ [] }
{
    Vec::new(alloc)
}

/// An `if` without a second branch.
pub fn if_only(alloc: Global, condition: Part<Proc>, yes: Part<Proc>) -> Result<Part<Proc>, Fault>
    requires condition { condition.height + 1 < 2 ^ 32 }
    requires yes { yes.height + 1 < 2 ^ 32 }
    ensures tree { HasTree proc_written result (if_of (proc_written condition.value) (proc_written yes.value) nil) }
    ensures height { IfOk result (λ p. p.height ≡ max condition.height yes.height + 1) }
{
    let no = nil(alloc);
    choice(alloc, condition, yes, no)
}

/// No cases, of a `match` whose target has this height.
pub fn no_cases(alloc: Global, height: u32) -> Part<Vec<Case>>
    ensures tree { map case_written result.value.items ≡ [] }
    ensures height { result.height ≡ height }
{
    Part {
        value: Vec::new(alloc),
        height,
    }
}

/// An integer that stands without a `-`.
pub fn positive(value: u64) -> Ground
    requires { value ≤ 2 ^ 63 - 1 }
    ensures { ground_label result ≡ int (pos value) }
{
    Ground::Int(value as i64)
}

/// An integer after a `-`.
pub fn negative(value: u64) -> Ground
    requires { value ≤ 2 ^ 63 }
    ensures { ground_label result ≡ int (neg_ℤ (pos value)) }
{
    Ground::Int((-i128::from(value)) as i64)
}
