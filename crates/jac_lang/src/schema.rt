ghost use Rattle.std.specs.Prelude.{◌≤◌, length};

use crate::{Expr, Fields, Publics};
use jac_value::Txt;
use std::alloc::Global;
use std::marker::Model;

/// The fields that one policy guards, each with its public value. If `hides` is set, the policy
/// guards the whole record, which is hidden unless the policy's label is shown.
#[derive(Drop)]
pub struct Group {
    pub guards: Publics,
    pub hides: bool,
    pub policy: Expr,
}

/// The groups of a model in the order of the text, at most 8.
#[derive(Drop)]
pub struct Groups {
    groups: Vec<Group>,
}

/// A model. Its records have these fields, at most 32.
#[derive(Drop)]
pub struct ModelDef {
    pub name: Txt,
    /// Whether its records are created in loops, each for a record of another model.
    pub nested: bool,
    pub fields: Fields,
    pub groups: Groups,
    ghost few_fields: { length fields ≤ 32 },
}

/// The models of an application in the order of the text, at most 64. The place of a model is its
/// number.
#[derive(Drop)]
pub struct Models {
    models: Vec<ModelDef>,
}

impl Model for Groups {
    ghost use Rattle.std.specs.Prelude.{List, ◌≤◌, length};
    ghost use Rattle.std.specs.Coded.{codes};
    ghost use Rattle.jac_lang.specs.declared.schema.Group.{Group as Item};
    ghost use Rattle.jac_lang.specs.contracts.schema.Group as item;

    ghost Value = { List Item };

    ghost coded = { Prim.hlevel (codes, item.the_row.coded) };

    ghost view = { λ g. g.groups.items };

    ghost invariant = { λ g. length g.groups.items ≤ 8 };
}

impl Model for Models {
    ghost use Rattle.std.specs.Prelude.{List, ◌≤◌, length};
    ghost use Rattle.std.specs.Coded.{codes};
    ghost use Rattle.jac_lang.specs.declared.schema.ModelDef.{ModelDef as Item};
    ghost use Rattle.jac_lang.specs.contracts.schema.ModelDef as item;

    ghost Value = { List Item };

    ghost coded = { Prim.hlevel (codes, item.the_row.coded) };

    ghost view = { λ m. m.models.items };

    ghost invariant = { λ m. length m.models.items ≤ 64 };
}

impl Groups {
    ghost use Rattle.std.specs.Prelude.{◌≡◌, ◌≤◌, [], length, vec_len};

    pub fn empty(alloc: Global) -> Groups
        ensures { result ≡ [] }
    {
        Groups {
            groups: Vec::new(alloc),
        }
    }

    pub fn from_vec(groups: Vec<Group>) -> Groups
        requires { vec_len groups ≤ 8 }
        ensures { result ≡ groups.items }
    {
        Groups { groups }
    }

    pub fn as_slice(&self) -> &[Group]
        ensures groups { result.now ≡ self.now }
        ensures few { length self.now ≤ 8 }
    {
        self.groups.as_slice()
    }

    pub fn into_vec(self) -> Vec<Group>
        ensures groups { result.items ≡ self }
        ensures few { length self ≤ 8 }
    {
        self.groups
    }
}

impl Models {
    ghost use Rattle.std.specs.Prelude.{◌≡◌, ◌≤◌, [], length, vec_len};

    pub fn empty(alloc: Global) -> Models
        ensures { result ≡ [] }
    {
        Models {
            models: Vec::new(alloc),
        }
    }

    pub fn from_vec(models: Vec<ModelDef>) -> Models
        requires { vec_len models ≤ 64 }
        ensures { result ≡ models.items }
    {
        Models { models }
    }

    pub fn as_slice(&self) -> &[ModelDef]
        ensures models { result.now ≡ self.now }
        ensures few { length self.now ≤ 64 }
    {
        self.models.as_slice()
    }

    pub fn into_vec(self) -> Vec<ModelDef>
        ensures models { result.items ≡ self }
        ensures few { length self ≤ 64 }
    {
        self.models
    }
}
