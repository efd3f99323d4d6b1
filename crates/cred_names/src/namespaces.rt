//! The user namespaces that a script declares (user_namespaces(7)).
ghost use Rattle.std.specs.Prelude.{◌≡◌, ◌==◌, [], ◌++◌, IsSome, OnErr, OnOk, find, is_some};
ghost use Rattle.std.specs.Option.{option_map};
ghost use Rattle.cred_model.specs.Script.{chain_in, lineage_in, reaches};
ghost use Rattle.cred_names.specs.Namespaces as spec;

use cred_ids::{Id, NoMemory};
use std::alloc::Global;
use std::marker::Model;

/// A namespace that a line declares.
#[derive(Drop)]
struct Namespace {
    number: u32,
    /// The root ids of the namespace and of its ancestors, its own first.
    chain: Vec<Id>,
    /// The numbers of these namespaces, in the same order.
    lineage: Vec<u32>,
}

impl Model for Namespace {
    ghost use Rattle.cred_model.specs.Script.{Namespace};

    ghost Value = { Namespace };

    ghost view = { λ n. record {
      number = n.number;
      chain = n.chain.items;
      lineage = n.lineage.items;
    } };
}

/// The namespaces that are declared, in the order of their lines, beside the initial one.
#[derive(Drop)]
pub struct Namespaces {
    /// The root id of the initial namespace, which has no parent.
    initial: [Id; 1],
    declared: Vec<Namespace>,
}

impl Model for Namespaces {
    ghost use Rattle.std.specs.Prelude.{◌≡◌, List};
    ghost use Rattle.cred_model.specs.Script.{Namespace, INITIAL};

    ghost Value = { List Namespace };

    ghost view = { λ n. n.declared.items };

    ghost invariant = { λ n. n.initial ≡ INITIAL };
}

impl Namespaces {
    /// The initial one alone.
    pub fn new(alloc: Global) -> Namespaces
        ensures { result ≡ [] }
    {
        // 0 is an id.
        let root = Id::new(0).unwrap();
        Namespaces {
            initial: [root],
            declared: Vec::new(alloc),
        }
    }

    /// The root ids of the namespace of this number and of its ancestors, its own first; none for a
    /// number that isn't declared. Namespace 0, the initial one, always is.
    pub fn chain(&self, number: u32) -> Option<&[Id]>
        ensures { option_map (λ chain. chain.now) result ≡ chain_in self.now number }
    {
        if number == 0 {
            return Some(&self.initial);
        }
        let namespace = numbered(&self.declared, number)?;
        Some(&namespace.chain)
    }

    /// Whether the namespace of this number is declared. The initial one, 0, always is.
    pub fn has(&self, number: u32) -> bool
        ensures { result ≡ is_some (chain_in self.now number) }
    {
        self.chain(number).is_some()
    }

    /// Whether the outer namespace is the inner one or an ancestor of it (user_namespaces(7)).
    pub fn reaches(&self, outer: u32, inner: u32) -> bool
        ensures { result ≡ reaches self.now outer inner }
    {
        if inner == 0 {
            return outer == 0;
        }
        match numbered(&self.declared, inner) {
            Some(namespace) => namespace.lineage.contains(&outer),
            None => false,
        }
    }

    /// Adds a namespace, with its root id and its parent, which is declared.
    ///
    /// # Errors
    ///
    /// `NoMemory` where there is no memory for its root ids and numbers; then nothing changes.
    pub fn add(&mut self, alloc: Global, number: u32, root: Id, parent: u32) -> Result<(), NoMemory>
        requires { IsSome (chain_in self.old parent) }
        ensures ok { OnOk result (self.new ≡ spec.with_namespace self.old number root parent) }
        ensures err { OnErr result (self.new ≡ self.old) }
    {
        let mut chain = Vec::new(alloc);
        chain.push(root)?;
        chain.extend_from_slice(self.chain(parent).unwrap())?;
        let mut lineage = Vec::new(alloc);
        lineage.push(number)?;
        self.add_lineage(parent, &mut lineage)?;
        self.declared.push(Namespace {
            number,
            chain,
            lineage,
        })?;
        Ok(())
    }

    /// Appends the numbers of a namespace and of its ancestors.
    fn add_lineage(&self, number: u32, lineage: &mut Vec<u32>) -> Result<(), NoMemory>
        ensures { OnOk result (lineage.new.items
            ≡ lineage.old.items ++ lineage_in self.now number) }
    {
        if number == 0 {
            lineage.push(number)?;
            return Ok(());
        }
        if let Some(namespace) = numbered(&self.declared, number) {
            lineage.extend_from_slice(&namespace.lineage)?;
        }
        Ok(())
    }
}

/// The namespace of this number among these.
fn numbered(declared: &[Namespace], number: u32) -> Option<&Namespace>
    ensures { option_map (λ n. n.now) result ≡ find (λ n. n.number == number) declared.now }
{
    declared.iter().find(|n| n.number == number)
}
