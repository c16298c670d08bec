//! How wide the parts of a tree may be: lists hold them side by side, some for each token or two of a text.
use crate::{Case, Decl, Element, Expr, Label, Statement, TypeTree};
use std::mem::size_of;

const _: () = prove!(size_of::<Expr>() <= 200);

const _: () = prove!(size_of::<Element>() <= 208);

const _: () = prove!(size_of::<Label>() <= 24);

const _: () = prove!(size_of::<Case>() <= 88);

const _: () = prove!(size_of::<Statement>() <= 96);

const _: () = prove!(size_of::<TypeTree>() <= 168);

const _: () = prove!(size_of::<Decl>() <= 248);
