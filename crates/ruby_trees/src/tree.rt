//! A tree as text.
//!
//! A node is its form and its parts in round brackets, as `(if COND YES NO)`. A sequence of
//! statements stands in braces; a list of nodes stands in square brackets where other parts
//! follow. A part that isn't there is `-`.

use crate::line::{Done, Line};
use crate::names::{jump_name, literal_name, operator_name};
use opal_base::Units;
use ruby_meaning::{Base, Kind, ModuleForm, Node, Nodes, Params, Rest, Slot, Slots};
use sqlite_items::Boxed;

/// Writes a tree.
#[cycle(tree)]
pub fn tree(line: &mut Line, node: &Node) -> Done {
    form(line, node.kind.get())?;
    line.places(node.span, node.mark)
}

// A node without its places.
#[cycle(tree)]
fn form(line: &mut Line, kind: &Kind) -> Done {
    match kind {
        Kind::Seq(items) => {
            line.put("{")?;
            separated(line, items)?;
            line.put("}")
        }
        Kind::Lit(literal) => line.put(literal_name(*literal)),
        Kind::SelfRef => line.put("self"),
        Kind::Int(value) => line.number(*value),
        Kind::Str(text) => line.quoted(text),
        Kind::Retry => line.put("retry"),
        Kind::Reraise => line.put("reraise"),
        _ => {
            line.put("(")?;
            parts(line, kind)?;
            line.put(")")
        }
    }
}

// The name of a form and its parts.
#[cycle(tree)]
fn parts(line: &mut Line, kind: &Kind) -> Done {
    match kind {
        Kind::Interp(items) => list(line, "interp", items),
        Kind::ArrayLit(items) => list(line, "array", items),
        Kind::Yield(args) => list(line, "yield", args),
        Kind::BlockPass(value) => one(line, "pass", value),
        Kind::Splat(value) => one(line, "splat", value),
        Kind::Not(value) => one(line, "not", value),
        Kind::Jump(jump, value) => one(line, jump_name(*jump), value),
        Kind::HashLit { keys, values } => {
            line.put("hash")?;
            bracketed(line, keys)?;
            bracketed(line, values)
        }
        Kind::RangeLit {
            low,
            high,
            without_end,
        } => {
            line.put(if *without_end { "..." } else { ".." })?;
            part(line, low)?;
            part(line, high)
        }
        Kind::And(left, right) => {
            line.put("and")?;
            part(line, left)?;
            part(line, right)
        }
        Kind::Or(left, right) => {
            line.put("or")?;
            part(line, left)?;
            part(line, right)
        }
        _ => variable(line, kind),
    }
}

// The parts of a form that reads or sets a variable, a constant or an attribute.
#[cycle(tree)]
fn variable(line: &mut Line, kind: &Kind) -> Done {
    match kind {
        Kind::LocalGet(name) => named(line, "local", name),
        Kind::IvarGet(name) => named(line, "ivar", name),
        Kind::GlobalGet(name) => named(line, "global", name),
        Kind::ConstGet { base, name } => {
            line.put("const")?;
            start(line, base)?;
            line.word(name)
        }
        Kind::LocalSet(name, value) => set(line, "set_local", name, value),
        Kind::IvarSet(name, value) => set(line, "set_ivar", name, value),
        Kind::GlobalSet(name, value) => set(line, "set_global", name, value),
        Kind::ConstSet(name, value) => set(line, "set_const", name, value),
        Kind::MultiSet { targets, value } => {
            line.put("set_all")?;
            bracketed(line, targets)?;
            part(line, value)
        }
        Kind::AttrSet {
            receiver,
            name,
            args,
            value,
        } => {
            line.put("set_attr")?;
            part(line, receiver)?;
            line.word(name)?;
            bracketed(line, args)?;
            part(line, value)
        }
        Kind::AttrOpSet {
            receiver,
            name,
            args,
            op,
            value,
        } => {
            line.put("update_attr")?;
            part(line, receiver)?;
            line.word(name)?;
            bracketed(line, args)?;
            line.put(" ")?;
            line.put(operator_name(*op))?;
            part(line, value)
        }
        _ => call(line, kind),
    }
}

// The parts of a call or of a block.
#[cycle(tree)]
fn call(line: &mut Line, kind: &Kind) -> Done {
    match kind {
        Kind::Call {
            receiver,
            name,
            args,
            block,
            marked,
        } => {
            match receiver {
                Some(receiver) => one(line, "send", receiver)?,
                None => line.put("call")?,
            }
            line.word(name)?;
            all(line, args)?;
            behind(line, block)?;
            match marked {
                Some(pos) => {
                    line.put(" marked=")?;
                    line.pos(*pos)
                }
                None => Ok(()),
            }
        }
        Kind::Super {
            args: Some(args),
            block,
        } => {
            list(line, "super", args)?;
            behind(line, block)
        }
        Kind::Super { args: None, block } => {
            line.put("zsuper")?;
            behind(line, block)
        }
        Kind::Block { params, body } => {
            line.put("block")?;
            parameters(line, params)?;
            part(line, body)
        }
        Kind::Lambda { params, body } => {
            line.put("lambda")?;
            parameters(line, params)?;
            part(line, body)
        }
        _ => branch(line, kind),
    }
}

// The parts of a condition, a loop or a body with clauses.
#[cycle(tree)]
fn branch(line: &mut Line, kind: &Kind) -> Done {
    match kind {
        Kind::If { cond, yes, no } => {
            one(line, "if", cond)?;
            part(line, yes)?;
            part(line, no)
        }
        Kind::While {
            cond,
            body,
            body_first,
        } => {
            line.put(if *body_first { "do_while" } else { "while" })?;
            part(line, cond)?;
            part(line, body)
        }
        Kind::Case {
            subject,
            whens,
            otherwise,
        } => {
            line.put("case")?;
            part_if(line, subject)?;
            bracketed(line, whens)?;
            part(line, otherwise)
        }
        Kind::When { tests, body } => {
            line.put("when")?;
            bracketed(line, tests)?;
            part(line, body)
        }
        Kind::Begin {
            body,
            clauses,
            else_part,
            ensure_part,
        } => {
            one(line, "begin", body)?;
            bracketed(line, clauses)?;
            part_if(line, else_part)?;
            part_if(line, ensure_part)
        }
        Kind::Rescue {
            classes,
            name,
            body,
        } => {
            line.put("rescue")?;
            bracketed(line, classes)?;
            line.word_if(name)?;
            part(line, body)
        }
        _ => definition(line, kind),
    }
}

// The parts of a definition.
#[cycle(tree)]
fn definition(line: &mut Line, kind: &Kind) -> Done {
    match kind {
        Kind::Def {
            on,
            name,
            params,
            body,
        } => {
            line.put("def")?;
            part_if(line, on)?;
            line.word(name)?;
            parameters(line, params)?;
            part(line, body)
        }
        Kind::ModuleDef { form, name, body } => {
            module(line, form)?;
            line.word(name)?;
            part(line, body)
        }
        Kind::Prim { name, args } => {
            line.put("prim")?;
            line.word(name)?;
            all(line, args)
        }
        Kind::Alias { new, old } => {
            named(line, "alias", new)?;
            line.word(old)
        }
        Kind::Undef(names) => {
            line.put("undef")?;
            line.words(names)
        }
        Kind::Require { name, relative } => {
            let form = if *relative {
                "require_relative"
            } else {
                "require"
            };
            named(line, form, name)
        }
        _ => Ok(()),
    }
}

fn named(line: &mut Line, form: &str, name: &Units) -> Done {
    line.put(form)?;
    line.word(name)
}

// A form with one part.
#[cycle(tree)]
fn one(line: &mut Line, form: &str, value: &Boxed<Node>) -> Done {
    line.put(form)?;
    part(line, value)
}

#[cycle(tree)]
fn set(line: &mut Line, form: &str, name: &Units, value: &Boxed<Node>) -> Done {
    named(line, form, name)?;
    part(line, value)
}

// A form with a list of parts.
#[cycle(tree)]
fn list(line: &mut Line, form: &str, nodes: &Nodes) -> Done {
    line.put(form)?;
    all(line, nodes)
}

// A part behind a blank.
#[cycle(tree)]
fn part(line: &mut Line, node: &Boxed<Node>) -> Done {
    line.put(" ")?;
    tree(line, node.get())
}

#[cycle(tree)]
fn part_if(line: &mut Line, node: &Option<Boxed<Node>>) -> Done {
    line.put(" ")?;
    match node {
        Some(node) => tree(line, node.get()),
        None => line.put("-"),
    }
}

// The block of a call, behind `&`.
#[cycle(tree)]
fn behind(line: &mut Line, block: &Option<Boxed<Node>>) -> Done {
    match block {
        Some(block) => {
            line.put(" & ")?;
            tree(line, block.get())
        }
        None => Ok(()),
    }
}

// Nodes, each behind a blank.
#[cycle(tree)]
fn all(line: &mut Line, nodes: &Nodes) -> Done {
    for node in nodes.as_slice() {
        line.put(" ")?;
        tree(line, node)?;
    }
    Ok(())
}

// Nodes with a blank between each two.
#[cycle(tree)]
fn separated(line: &mut Line, nodes: &Nodes) -> Done {
    for (at, node) in nodes.as_slice().iter().enumerate() {
        if at > 0 {
            line.put(" ")?;
        }
        tree(line, node)?;
    }
    Ok(())
}

#[cycle(tree)]
fn bracketed(line: &mut Line, nodes: &Nodes) -> Done {
    line.put(" [")?;
    separated(line, nodes)?;
    line.put("]")
}

// Where the lookup of a constant begins.
#[cycle(tree)]
fn start(line: &mut Line, base: &Base) -> Done {
    match base {
        Base::Here => Ok(()),
        Base::Top => line.put(" top"),
        Base::In(node) => one(line, " in", node),
    }
}

// The word of a module definition, and its superclass or object.
#[cycle(tree)]
fn module(line: &mut Line, form: &ModuleForm) -> Done {
    match form {
        ModuleForm::Class(superclass) => {
            line.put("class")?;
            part_if(line, superclass)
        }
        ModuleForm::Module => line.put("module"),
        ModuleForm::Singleton(node) => one(line, "singleton", node),
    }
}

// Parameters between bars: `|PLAIN OPTIONAL=DEFAULT *REST ; AFTER &BLOCK|`, each behind a blank
// but the first bar.
#[cycle(tree)]
fn parameters(line: &mut Line, params: &Params) -> Done {
    line.put(" |")?;
    slots(line, &params.plain)?;
    for (at, default) in params.defaults.as_slice().iter().enumerate() {
        if at < params.optional.len() {
            line.word(params.optional.at(at))?;
        }
        line.put("=")?;
        tree(line, default)?;
    }
    rest(line, &params.rest)?;
    if !params.after.is_empty() {
        line.put(" ;")?;
        slots(line, &params.after)?;
    }
    if let Some(block) = &params.block {
        line.put(" &")?;
        line.name(block)?;
    }
    line.put(" |")
}

fn slots(line: &mut Line, slots: &Slots) -> Done {
    for slot in slots.as_slice() {
        match slot {
            Slot::Name(name) => line.word(name)?,
            Slot::Names(names) => {
                line.put(" (")?;
                line.words(names)?;
                line.put(" )")?;
            }
        }
    }
    Ok(())
}

fn rest(line: &mut Line, rest: &Rest) -> Done {
    match rest {
        Rest::None => Ok(()),
        Rest::Unnamed => line.put(" *"),
        Rest::Named(name) => {
            line.put(" *")?;
            line.name(name)
        }
    }
}
