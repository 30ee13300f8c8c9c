//! The first part of an application that another one lacks or has changed.
ghost use Rattle.std.specs.Prelude.{◌≡◌, ◌≤◌, length};
ghost use Rattle.jac_lang.specs.Mirror.{application_of, entity_of, entities_of, groups_of};
ghost use Rattle.jac_upgrade.specs.Extends.{upgrade_fault, models_lack, model_lack, fields_lack, groups_lack};

use crate::UpgradeFault;
use crate::likeness::{same_field, same_group, same_model};
use jac_lang::{App, Field, Group, ModelDef};

/// Whether the new application extends the old one: its models must begin with those of the old
/// one, and in each of these so must its fields and its groups. The fault is the first part of the
/// old application that the new one lacks or has changed. Models are compared in order, and in each
/// model first its name, then its fields, then its groups.
pub fn extends(old: &App, new: &App) -> Result<(), UpgradeFault>
    ensures { upgrade_fault result ≡ models_lack 0 (application_of old.now).models
        (application_of new.now).models }
{
    match models_lack(old.models.as_slice(), new.models.as_slice()) {
        Some(fault) => Err(fault),
        None => Ok(()),
    }
}

fn models_lack(olds: &[ModelDef], news: &[ModelDef]) -> Option<UpgradeFault>
    requires { length olds.now ≤ 64 }
    ensures { result ≡ models_lack 0 (entities_of olds.now) (entities_of news.now) }
{
    let mut left = olds;
    let mut right = news;
    let mut model = 0;
    'models: while let Some((old, rest)) = left.split_first() {
        let Some((new, more)) = right.split_first() else {
            return Some(UpgradeFault::Model(model));
        };
        if let Some(fault) = model_lack(model, old, new) {
            return Some(fault);
        }
        left = rest;
        right = more;
        model += 1;
    }
    None
}

fn model_lack(model: u8, old: &ModelDef, new: &ModelDef) -> Option<UpgradeFault>
    ensures { result ≡ model_lack model (entity_of old.now) (entity_of new.now) }
{
    if !same_model(old, new) {
        return Some(UpgradeFault::Model(model));
    }
    if let Some(fault) = fields_lack(model, old.fields.as_slice(), new.fields.as_slice()) {
        return Some(fault);
    }
    groups_lack(model, old.groups.as_slice(), new.groups.as_slice())
}

fn fields_lack(model: u8, olds: &[Field], news: &[Field]) -> Option<UpgradeFault>
    requires { length olds.now ≤ 32 }
    ensures { result ≡ fields_lack model 0 olds.now news.now }
{
    let mut left = olds;
    let mut right = news;
    let mut field = 0;
    'fields: while let Some((old, rest)) = left.split_first() {
        let Some((new, more)) = right.split_first() else {
            return Some(UpgradeFault::Field { model, field });
        };
        if !same_field(old, new) {
            return Some(UpgradeFault::Field { model, field });
        }
        left = rest;
        right = more;
        field += 1;
    }
    None
}

fn groups_lack(model: u8, olds: &[Group], news: &[Group]) -> Option<UpgradeFault>
    requires { length olds.now ≤ 8 }
    ensures { result ≡ groups_lack model 0 (groups_of olds.now) (groups_of news.now) }
{
    let mut left = olds;
    let mut right = news;
    let mut group = 0;
    'groups: while let Some((old, rest)) = left.split_first() {
        let Some((new, more)) = right.split_first() else {
            return Some(UpgradeFault::Group { model, group });
        };
        if !same_group(old, new) {
            return Some(UpgradeFault::Group { model, group });
        }
        left = rest;
        right = more;
        group += 1;
    }
    None
}
