//! What a change does to the bodies of all definitions. It is prepared before any of them changes.
ghost use Rattle.std.specs.Prelude.{◌≡◌, ◌<◌, [], false, is_some, length, map, IfOk, OnOk};
ghost use Rattle.std.specs.List.{AllByRecursion};
ghost use Rattle.std.specs.Option.{unwrap_or};
ghost use Rattle.ic_laws.specs.BookTrees.{with_body_tree};
ghost use Rattle.ic_laws.specs.Changes.{changed_tree};
ghost use Rattle.ic_definitions.specs.Bodies.{FitsBodies, IsNoted, with_bodies};
ghost use Rattle.ic_definitions.specs.Remade.{LeavesBody, remade_body, touched_bodies};
ghost use Rattle.ic_pool.specs.Mentions.{formula_after, is_changed_by};

use crate::Definition;
use ic_laws::{Formula, OutOfMemory};
use ic_pool::{BookChange, Remaking, changed_formula, has_dangling, remade_formula};
use std::alloc::Global;

/// A body that becomes another.
#[derive(Drop)]
pub struct NewBody {
    /// Where its definition stands, from 0.
    pub at: usize,
    /// What it becomes.
    pub body: Formula,
}

/// What is prepared before the bodies of definitions change, so that the change itself can't fail.
#[derive(Drop)]
pub struct BodyRewrites {
    bodies: Vec<NewBody>,
    /// Where it is false, all that the bodies mention will be found.
    pub(crate) may_dangle: bool,
}

impl BodyRewrites {
    /// No body becomes another.
    pub(crate) fn new(alloc: Global) -> BodyRewrites
        ensures bodies { result.bodies.items ≡ [] }
        ensures dangles { result.may_dangle ≡ false }
    {
        BodyRewrites {
            bodies: Vec::new(alloc),
            may_dangle: false,
        }
    }

    /// The bodies that become others, by the places of their definitions.
    pub fn bodies(&self) -> &[NewBody]
        ensures { result.now ≡ self.now.bodies.items }
    {
        &self.bodies
    }

    /// Looks at the body of the definition at an index.
    fn note<C: BookChange>(
        &mut self,
        alloc: Global,
        change: &C,
        at: usize,
        definition: &Definition,
    ) -> Result<(), OutOfMemory>
        ensures { OnOk result (IsNoted at definition.now
            (formula_after (C.change change.now) definition.now.scope definition.now.body)
            (is_changed_by (C.change change.now) definition.now.scope definition.now.body)
            self.old self.new) }
    {
        let becomes = changed_formula(alloc, change, definition.scope(), definition.body())?;
        self.note_becomes(at, definition, becomes)
    }

    /// The same where it may be made anew, if the rule leaves it where it doesn't touch it.
    fn note_remade<R: Remaking>(
        &mut self,
        alloc: Global,
        remaking: &R,
        at: usize,
        definition: &Definition,
    ) -> Result<(), OutOfMemory>
        requires { LeavesBody (R.made remaking.now) definition.now }
        ensures { OnOk result (IsNoted at definition.now
            ((R.made remaking.now).becomes definition.now.scope definition.now.body)
            ((R.made remaking.now).touches definition.now.scope definition.now.body)
            self.old self.new) }
    {
        let becomes = remade_formula(alloc, remaking, definition.scope(), definition.body())?;
        self.note_becomes(at, definition, becomes)
    }

    /// Puts behind the others what the body of the definition at an index becomes, or that it stays.
    fn note_becomes(
        &mut self,
        at: usize,
        definition: &Definition,
        becomes: Option<Formula>,
    ) -> Result<(), OutOfMemory>
        ensures { OnOk result (IsNoted at definition.now
            (unwrap_or becomes definition.now.body) (is_some becomes) self.old self.new) }
    {
        match becomes {
            None => self.may_dangle |= has_dangling(definition.body()),
            Some(body) => {
                self.may_dangle |= has_dangling(&body);
                self.bodies.push(NewBody { at, body })?;
            }
        }
        Ok(())
    }

    /// Gives the definitions their new bodies.
    pub(crate) fn put(self, definitions: &mut [Definition])
        requires { AllByRecursion (λ b. b.at < length definitions.old) self.bodies.items }
        ensures { definitions.new ≡ with_bodies self.bodies.items definitions.old }
    {
        for new in self.bodies {
            let definition = &mut definitions[new.at];
            definition.set_body(new.body);
        }
    }
}

/// What a change does to the bodies of these definitions.
pub fn rewrites_of<C: BookChange>(
    alloc: Global,
    definitions: &[Definition],
    change: &C,
) -> Result<BodyRewrites, OutOfMemory>
    ensures made { IfOk result (λ w. with_bodies w.bodies.items definitions.now
        ≡ map (with_body_tree (changed_tree (C.change change.now))) definitions.now) }
    ensures fits { IfOk result (λ w. FitsBodies w definitions.now) }
{
    let mut rewrites = BodyRewrites::new(alloc);
    for (at, definition) in definitions.iter().enumerate() {
        rewrites.note(alloc, change, at, definition)?;
    }
    Ok(rewrites)
}

/// What becomes of the bodies of these definitions where they are made anew, if the rule leaves each that it doesn't touch.
pub fn rewrites_remade<R: Remaking>(
    alloc: Global,
    definitions: &[Definition],
    remaking: &R,
) -> Result<BodyRewrites, OutOfMemory>
    requires { AllByRecursion (LeavesBody (R.made remaking.now)) definitions.now }
    ensures made { IfOk result (λ w. with_bodies w.bodies.items definitions.now
        ≡ map (remade_body (R.made remaking.now)) definitions.now) }
    ensures listed { IfOk result (λ w. w.bodies.items
        ≡ touched_bodies (R.made remaking.now) 0 definitions.now) }
    ensures fits { IfOk result (λ w. FitsBodies w definitions.now) }
{
    let mut rewrites = BodyRewrites::new(alloc);
    for (at, definition) in definitions.iter().enumerate() {
        rewrites.note_remade(alloc, remaking, at, definition)?;
    }
    Ok(rewrites)
}
