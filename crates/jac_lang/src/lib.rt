//! The language of applications: models, views, statements, expressions and queries.
#![tactic(auto)]

mod application;
mod assigned;
mod bindings;
mod expressions;
mod field_kinds;
mod lookups;
mod pages;
mod queries;
mod schema;
mod statements;

pub use application::App;
pub use assigned::{Public, Publics};
pub use bindings::{Binding, PlainEnv};
pub use expressions::{Expr, Exprs, Op, Query};
pub use field_kinds::{Field, Fields, KindName};
pub use lookups::{field_of, group_of, hiding_group, is_nested, kind_of, model_of};
pub use pages::{Verb, View, Views};
pub use queries::{Binder, Binders, Order};
pub use schema::{Group, Groups, ModelDef, Models};
pub use statements::{Stmt, Stmts};
