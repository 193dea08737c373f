//! The sets of brackets that were left as terms: each name in a term is looked up once.
ghost use Rattle.std.specs.Prelude.{◌≡◌, ℕ, All, List, [], IfOk, IfSome, OnOk, map};
ghost use Rattle.cp_invlist.specs.InversionList.{IsInversionList};
ghost use Rattle.cp_strset_terms.specs.Leaves.{code_points_of, FitsNumbers};
ghost use Rattle.cp_terms.specs.Terms.{top};
ghost use Rattle.prop_data.specs.Database.{tables_of};
ghost use Rattle.uset_grammar.specs.Language.{Language};
ghost use Rattle.uset_grammar.specs.Tree.{Member};
ghost use Rattle.uset_read.specs.Queries.{query_seen};
ghost use Rattle.uset_resolve.specs.Resolution.{resolve};
ghost use Rattle.uset_gather.specs.Gathered.{in_set};
ghost use Rattle.uset_steps.specs.Names.{variable, property, name_seen, in_meant};
ghost use Rattle.uset_steps.specs.NumberedTerms.{put_in, steps_over};
ghost use Rattle.uset_steps.specs.Terms.{term_in, closed_in};
ghost use Rattle.uset_variables.specs.Variables.{numbered_strings};
ghost use Rattle.uset_reader.specs.Evaluation.{lists_of_leaf, lists_of_found, found_in, some_found_in, FoundFits, puts_complement, AreFound, PushesStep, listed_at, found_at};
ghost use Rattle.uset_reader.specs.Named.{sets_of};
ghost use Rattle.uset_reader.specs.Syntaxes.{language_seen, database_seen};

use crate::found::FoundSet;
use crate::property::{resolve_query, set_of};
use crate::syntax::Syntax;
use cp_invlist::NoMemory;
use cp_invlist::laws::members_are_code_points;
use cp_strset::CodePointInversionListAndStringList;
use cp_strset_terms::{Leaf, Step, StringNumbers, evaluate};
use std::alloc::Global;
use uset_gather::Gathered;
use uset_read::Query;
use uset_resolve::Resolver;
use uset_steps::{Closed, Name, NamedSet, NumberedTerm, Term, TermSet};
use uset_variables::VariableValue;

/// The set that the variable is bound to, if it is bound to one, or that of its string alone, with the numbers of its
/// strings where they are kept.
fn find_variable<'v>(
    alloc: Global,
    syntax: &Syntax<'v>,
    name: &str,
) -> Result<Option<FoundSet<'v>>, NoMemory>
    ensures members { IfOk result (λ found. (m : Member) →
        some_found_in found m ≡ in_meant (sets_of (language_seen syntax.now)) (variable name.now) m) }
    ensures fits { IfOk result (λ found. IfSome found (FoundFits (numbered_strings syntax.now.variables.now))) }
{
    if let Some((set, numbers)) = syntax.variables.numbered_set(name) {
        return Ok(Some(FoundSet::Numbered(set, numbers)));
    }
    let Some(value) = syntax.variables.get(name) else {
        return Ok(None);
    };
    match value {
        VariableValue::UnicodeSet(set) => Ok(Some(FoundSet::Named(NamedSet::Set(set)))),
        VariableValue::String(string) => Ok(Some(FoundSet::Gathered(string.alone(alloc)?))),
        VariableValue::Char(_) => Ok(None),
    }
}

/// The set that the property asks for, if it resolves.
fn find_property<'v, 'd: 'v>(
    alloc: Global,
    resolver: &mut Resolver<'d>,
    query: &Query,
) -> Result<Option<FoundSet<'v>>, NoMemory>
    ensures same { resolver.new ≡ resolver.old }
    ensures set { IfOk result (λ found. (l : Language) → l.resolve ≡ resolve (tables_of resolver.old) → (m : Member) →
        some_found_in found m ≡ in_meant (sets_of l) (property (query_seen query.now)) m) }
    ensures fits { IfOk result (λ found. (all : List (List ℕ)) → IfSome found (FoundFits all)) }
{
    let resolution = resolve_query(alloc, resolver, query)?;
    Ok(set_of(resolution, query.negated).ok().map(FoundSet::Named))
}

/// The set that the name stands for, if it stands for one.
fn find_named<'v, 'd: 'v>(
    alloc: Global,
    syntax: &Syntax<'v>,
    resolver: &mut Resolver<'d>,
    name: &Name,
) -> Result<Option<FoundSet<'v>>, NoMemory>
    requires { resolver.old ≡ syntax.now.database.now }
    ensures same { resolver.new ≡ resolver.old }
    ensures set { IfOk result (λ found. (m : Member) →
        some_found_in found m ≡ in_meant (sets_of (language_seen syntax.now)) (name_seen name.now) m) }
    ensures fits { IfOk result (λ found. IfSome found (FoundFits (numbered_strings syntax.now.variables.now))) }
{
    match name {
        Name::Variable(name) => find_variable(alloc, syntax, name.as_str()),
        Name::Property(query) => find_property(alloc, resolver, query),
    }
}

/// The set, with its name looked up where it has one.
fn find<'v, 'd: 'v>(
    alloc: Global,
    syntax: &Syntax<'v>,
    resolver: &mut Resolver<'d>,
    set: TermSet,
) -> Result<FoundSet<'v>, NoMemory>
    requires { resolver.old ≡ syntax.now.database.now }
    ensures same { resolver.new ≡ resolver.old }
    ensures set { IfOk result (λ found. (m : Member) →
        found_in found m ≡ put_in (sets_of (language_seen syntax.now)) set m) }
    ensures fits { IfOk result (FoundFits (numbered_strings syntax.now.variables.now)) }
{
    let name = match set {
        TermSet::Gathered(set) => return Ok(FoundSet::Gathered(set)),
        TermSet::Named(name) => name,
    };
    match find_named(alloc, syntax, resolver, &name)? {
        Some(found) => Ok(found),
        None => Ok(FoundSet::Gathered(Gathered::new(alloc).into_set(alloc)?)),
    }
}

/// The sets, with their names looked up.
fn find_all<'v, 'd: 'v>(
    alloc: Global,
    syntax: &Syntax<'v>,
    resolver: &mut Resolver<'d>,
    sets: Vec<TermSet>,
) -> Result<Vec<FoundSet<'v>>, NoMemory>
    requires { resolver.old ≡ syntax.now.database.now }
    ensures same { resolver.new ≡ resolver.old }
    ensures found { IfOk result (λ found. AreFound (sets_of (language_seen syntax.now)) sets.items found.items) }
    ensures fits { IfOk result (λ found. All (FoundFits (numbered_strings syntax.now.variables.now)) found.items) }
{
    let mut found = Vec::with_capacity(alloc, sets.len())?;
    for set in sets {
        found.push(find(alloc, syntax, resolver, set)?)?;
    }
    Ok(found)
}

/// The lists of the sets.
fn leaves_of<'f>(alloc: Global, found: &'f [FoundSet<'_>]) -> Result<Vec<Leaf<'f>>, NoMemory>
    ensures lists { IfOk result (λ leaves. map lists_of_leaf leaves.items ≡ map lists_of_found found.now) }
    ensures canonical { IfOk result (λ leaves. All (λ leaf. IsInversionList (code_points_of leaf)) leaves.items) }
    ensures fit { IfOk result (λ leaves. (all : List (List ℕ)) → All (FoundFits all) found.now →
        All (FitsNumbers all) leaves.items) }
{
    let mut leaves = Vec::with_capacity(alloc, found.len())?;
    for set in found {
        leaves.push(set.leaf())?;
    }
    Ok(leaves)
}

/// Whether the step puts down the lists of a set that has the other code points.
fn puts_complement(step: Step, found: &[FoundSet<'_>]) -> bool
    ensures { result ≡ puts_complement found.now step }
{
    match step {
        Step::Push(number) => found.get(number).is_some_and(FoundSet::is_complement),
        Step::Both(_) | Step::Complement | Step::Clear => false,
    }
}

/// Puts the step behind the others, and where it puts down the lists of a set that has the other code points a complement too.
fn push_step(all: &mut Vec<Step>, step: Step, found: &[FoundSet<'_>]) -> Result<(), NoMemory>
    ensures { OnOk result (PushesStep found.now step all.old.items all.new.items) }
{
    all.push(step)?;
    if puts_complement(step, found) {
        all.push(Step::Complement)?;
    }
    Ok(())
}

/// The steps over the lists of the sets.
fn with_complements(
    alloc: Global,
    steps: &[Step],
    found: &[FoundSet<'_>],
) -> Result<Vec<Step>, NoMemory>
    ensures { IfOk result (λ all. (m : Member) →
        steps_over m (listed_at (map lists_of_found found.now) m) all.items [] ≡
        steps_over m (found_at found.now m) steps.now []) }
{
    let mut all = Vec::with_capacity(alloc, steps.len())?;
    for step in steps {
        push_step(&mut all, *step, found)?;
    }
    Ok(all)
}

/// The set that the steps make of the sets. Where strings of these have numbers, they are those that `all` gives.
fn evaluate_steps(
    alloc: Global,
    all: &StringNumbers,
    steps: &[Step],
    found: &[FoundSet<'_>],
) -> Result<CodePointInversionListAndStringList, NoMemory>
    requires { All (FoundFits all.now) found.now }
    ensures { IfOk result
        (λ set. (m : Member) → in_set set m ≡ top (steps_over m (found_at found.now m) steps.now [])) }
{
    let steps = with_complements(alloc, steps, found)?;
    let leaves = leaves_of(alloc, found)?;
    members_are_code_points();
    evaluate(alloc, all, &leaves, &steps)
}

/// The set of the term.
fn evaluate_term<'v, 'd: 'v>(
    alloc: Global,
    syntax: &Syntax<'v>,
    resolver: &mut Resolver<'d>,
    term: Term,
) -> Result<CodePointInversionListAndStringList, NoMemory>
    requires { resolver.old ≡ syntax.now.database.now }
    ensures same { resolver.new ≡ resolver.old }
    ensures set { IfOk result
        (λ set. (m : Member) → in_set set m ≡ term_in (sets_of (language_seen syntax.now)) term m) }
{
    let NumberedTerm { sets, steps } = term.into_numbered(alloc)?;
    let found = find_all(alloc, syntax, resolver, sets)?;
    evaluate_steps(alloc, syntax.variables.string_numbers(), &steps, &found)
}

/// The set that was read with this syntax, as lists. Those that are made for properties are kept by the resolver.
/// `NoMemory` says that a request for memory was refused.
pub fn evaluate_set<'v, 'd: 'v>(
    alloc: Global,
    syntax: &Syntax<'v>,
    resolver: &mut Resolver<'d>,
    set: Closed,
) -> Result<CodePointInversionListAndStringList, NoMemory>
    requires known { resolver.old ≡ database_seen syntax.now }
    ensures same { resolver.new ≡ resolver.old }
    ensures set { IfOk result (λ s. (m : Member) → in_set s m ≡ closed_in (sets_of (language_seen syntax.now)) set m) }
{
    match set {
        Closed::Plain(set) => set.into_set(alloc),
        Closed::Term(term) => evaluate_term(alloc, syntax, resolver, Box::into_inner(term)),
    }
}
