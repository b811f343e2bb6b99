//! Settings, refusals and endpoints as text.

use fwd_base::{Bytes, Memory, Names};
use fwd_filters::{FilterKind, FilterStep};
use fwd_grep::GrepRules;
use fwd_parser::{FieldTypes, Floats, Parser, Shape, TypeKind};
use fwd_reshape::{Change, Condition, LiftRule, ModifyRules, NestRule};
use fwd_settings::{
    AllSettings, Ends, Form, HttpOptions, InEnd, InputKind, InputSet, OutEnd, OutputKind,
    OutputSet, PayloadForm, Retries, Service, SettingFault, SharedKey,
};

/// The kind of a refusal, its line and its file.
pub fn refusal(out: &mut String, fault: &SettingFault) -> Result<(), Memory> {
    let kind = fault.kind;
    let line = fault.place.line;
    let file = text(&fault.place.file);
    write!(out, "{kind:?} {line} {file}")?;
    Ok(())
}

/// A line for the engine, and one for each input, filter and output.
pub fn settings(out: &mut String, all: &AllSettings) -> Result<(), Memory> {
    show_service(out, &all.service)?;
    for set in all.inputs.as_slice() {
        show_input(out, set)?;
    }
    for step in all.filters.as_slice() {
        show_filter(out, step)?;
    }
    for set in all.outputs.as_slice() {
        show_output(out, set)?;
    }
    Ok(())
}

/// Bytes as text; `?` if they are no UTF-8.
pub fn text(bytes: &Bytes) -> &str {
    str::from_utf8(bytes.as_slice()).unwrap_or("?")
}

fn optional(bytes: &Option<Bytes>) -> &str {
    match bytes {
        Some(bytes) => text(bytes),
        None => "-",
    }
}

fn form_word(form: Form) -> &'static str {
    match form {
        Form::JsonLines => "json_lines",
        Form::OutFile => "out_file",
        Form::MsgPack => "msgpack",
    }
}

/// What each input and output is connected with.
pub fn ends(out: &mut String, ends: &Ends) -> Result<(), Memory> {
    for end in ends.inputs.as_slice() {
        show_in_end(out, end)?;
        out.push(';')?;
    }
    for end in ends.outputs.as_slice() {
        show_out_end(out, end)?;
        out.push(';')?;
    }
    Ok(())
}

fn show_in_end(out: &mut String, end: &InEnd) -> Result<(), Memory> {
    match end {
        InEnd::Quiet => out.push_str("quiet")?,
        InEnd::Stdin => out.push_str("stdin")?,
        InEnd::Listen { host, port } => {
            let host = text(host);
            write!(out, "listen {host}:{port}")?;
        }
    }
    Ok(())
}

fn show_out_end(out: &mut String, end: &OutEnd) -> Result<(), Memory> {
    match end {
        OutEnd::Stdout => out.push_str("stdout")?,
        OutEnd::Folder { path, file } => {
            let path = text(path);
            let file = optional(file);
            write!(out, "folder {path} {file}")?;
        }
        OutEnd::Peer { host, port } => {
            let host = text(host);
            write!(out, "peer {host}:{port}")?;
        }
    }
    Ok(())
}

fn show_service(out: &mut String, service: &Service) -> Result<(), Memory> {
    let flush = service.flush_ms;
    let grace = service.grace_s;
    let path = optional(&service.path);
    let full = service.full;
    let up = service.max_up;
    let limit = service.backlog_limit;
    let base = service.base;
    let cap = service.cap;
    write!(out, "flush {flush} grace {grace} path {path} full {full} ")?;
    write!(out, "up {up} limit {limit} base {base} cap {cap}")?;
    Ok(())
}

fn type_word(kind: TypeKind) -> &'static str {
    match kind {
        TypeKind::Integer => "integer",
        TypeKind::Hex => "hex",
        TypeKind::Bool => "bool",
        TypeKind::Float => "float",
        TypeKind::Text => "text",
    }
}

fn show_types(out: &mut String, types: &FieldTypes) -> Result<(), Memory> {
    for field in types.as_slice() {
        let key = text(&field.key);
        let kind = type_word(field.kind);
        write!(out, " {key}:{kind}")?;
    }
    Ok(())
}

fn show_shape(out: &mut String, shape: &Shape) -> Result<(), Memory> {
    match shape {
        Shape::Plain => out.push_str(" plain")?,
        Shape::Json => out.push_str(" json")?,
        Shape::Groups {
            types,
            skip_empty,
            ..
        } => {
            write!(out, " groups skip {skip_empty}")?;
            show_types(out, types)?;
        }
    }
    Ok(())
}

/// Whether floats are numbers in JSON; nothing if they aren't.
fn show_floats(out: &mut String, floats: Floats) -> Result<(), Memory> {
    match floats {
        Floats::Tagged => {}
        Floats::Numbers => out.push_str(" floats")?,
    }
    Ok(())
}

fn show_parser(out: &mut String, parser: &Parser) -> Result<(), Memory> {
    show_shape(out, &parser.shape)?;
    show_floats(out, parser.floats)?;
    if let Some(time) = &parser.time {
        let key = text(&time.key);
        let format = text(&time.format);
        let keep = time.keep;
        write!(out, " time {key} {format} keep {keep}")?;
    }
    Ok(())
}

fn show_paths(out: &mut String, paths: &Names) -> Result<(), Memory> {
    for path in paths.as_slice() {
        let path = text(path);
        write!(out, " <{path}>")?;
    }
    Ok(())
}

fn show_peer(out: &mut String, host: &Bytes, port: u16) -> Result<(), Memory> {
    let host = text(host);
    write!(out, " {host}:{port}")?;
    Ok(())
}

fn show_input_kind(out: &mut String, kind: &InputKind) -> Result<(), Memory> {
    match kind {
        InputKind::Tail { paths, from_head } => {
            show_paths(out, paths)?;
            write!(out, " head {from_head}")?;
        }
        InputKind::Tcp { host, port } | InputKind::Forward { host, port } => {
            show_peer(out, host, *port)?;
        }
        InputKind::Stdin => {}
    }
    Ok(())
}

fn show_limit(out: &mut String, limit: Option<u64>) -> Result<(), Memory> {
    if let Some(limit) = limit {
        write!(out, " limit {limit}")?;
    }
    Ok(())
}

fn show_shared(out: &mut String, shared: &Option<SharedKey>) -> Result<(), Memory> {
    if let Some(shared) = shared {
        let key = text(&shared.key);
        let host = text(&shared.host);
        write!(out, " shared <{key}> at <{host}>")?;
    }
    Ok(())
}

fn show_input(out: &mut String, set: &InputSet) -> Result<(), Memory> {
    let name = text(&set.name);
    write!(out, "\n{name}")?;
    show_input_kind(out, &set.kind)?;
    let tag = optional(&set.tag);
    let stored = set.stored;
    write!(out, " tag {tag} stored {stored}")?;
    show_limit(out, set.mem_limit)?;
    show_parser(out, &set.parser)?;
    show_shared(out, &set.shared)
}

fn show_filter(out: &mut String, step: &FilterStep) -> Result<(), Memory> {
    let glob = text(&step.glob);
    write!(out, "\n{glob}")?;
    match &step.kind {
        FilterKind::Grep(rules) => show_grep(out, rules),
        FilterKind::Modify(rules) => show_modify(out, rules),
        FilterKind::Nest(rule) => show_nest(out, rule),
        FilterKind::Lift(rule) => show_lift(out, rule),
    }
}

fn show_grep(out: &mut String, rules: &GrepRules) -> Result<(), Memory> {
    for rule in rules.as_slice() {
        let word = if rule.exclude { "exclude" } else { "regex" };
        let key = text(&rule.key);
        write!(out, " {word} {key}")?;
        show_floats(out, rule.floats)?;
    }
    Ok(())
}

fn show_modify(out: &mut String, rules: &ModifyRules) -> Result<(), Memory> {
    for condition in rules.conditions.as_slice() {
        show_condition(out, condition)?;
    }
    for change in rules.rules.as_slice() {
        show_change(out, change)?;
    }
    Ok(())
}

fn show_nest(out: &mut String, rule: &NestRule) -> Result<(), Memory> {
    let under = text(&rule.under);
    let remove = text(&rule.remove_prefix);
    let add = text(&rule.add_prefix);
    write!(out, " nest {under} -{remove} +{add}")?;
    for wildcard in rule.wildcards.as_slice() {
        let wildcard = text(wildcard);
        write!(out, " {wildcard}")?;
    }
    Ok(())
}

fn show_lift(out: &mut String, rule: &LiftRule) -> Result<(), Memory> {
    let under = text(&rule.under);
    let remove = text(&rule.remove_prefix);
    let add = text(&rule.add_prefix);
    write!(out, " lift {under} -{remove} +{add}")?;
    Ok(())
}

fn show_condition(out: &mut String, condition: &Condition) -> Result<(), Memory> {
    let (word, key, value) = match condition {
        Condition::KeyExists { key } => ("exists", text(key), ""),
        Condition::KeyDoesNotExist { key } => ("absent", text(key), ""),
        Condition::KeyValueEquals { key, value } => ("equals", text(key), text(value)),
        Condition::KeyValueDoesNotEqual { key, value } => ("differs", text(key), text(value)),
    };
    write!(out, " if {word} {key} <{value}>")?;
    Ok(())
}

fn show_change(out: &mut String, change: &Change) -> Result<(), Memory> {
    let (word, key, other) = match change {
        Change::Set { key, value } => ("set", text(key), text(value)),
        Change::Add { key, value } => ("add", text(key), text(value)),
        Change::Remove { key } => ("remove", text(key), ""),
        Change::RemoveWildcard { key } => ("remove*", text(key), ""),
        Change::Rename { key, to } => ("rename", text(key), text(to)),
        Change::HardRename { key, to } => ("hard_rename", text(key), text(to)),
        Change::Copy { key, to } => ("copy", text(key), text(to)),
        Change::HardCopy { key, to } => ("hard_copy", text(key), text(to)),
    };
    write!(out, " {word} {key} <{other}>")?;
    Ok(())
}

fn show_form(out: &mut String, form: PayloadForm) -> Result<(), Memory> {
    let word = form_word(form.form);
    write!(out, " {word}")?;
    show_floats(out, form.floats)
}

fn show_output_kind(out: &mut String, kind: &OutputKind) -> Result<(), Memory> {
    match kind {
        OutputKind::Stdout { form } => show_form(out, *form),
        OutputKind::File { folder, file, form } => {
            let folder = text(folder);
            let file = optional(file);
            write!(out, " {folder} {file}")?;
            show_form(out, *form)
        }
        OutputKind::Tcp { host, port, form } => {
            show_peer(out, host, *port)?;
            show_form(out, *form)
        }
        OutputKind::Forward {
            host,
            port,
            ack,
            whole_time,
        } => {
            show_peer(out, host, *port)?;
            write!(out, " ack {ack} whole {whole_time}")?;
            Ok(())
        }
        OutputKind::Http {
            host,
            port,
            uri,
            form,
            options,
        } => {
            show_peer(out, host, *port)?;
            let uri = text(uri);
            write!(out, " {uri}")?;
            show_form(out, *form)?;
            show_options(out, options)
        }
    }
}

fn show_options(out: &mut String, options: &HttpOptions) -> Result<(), Memory> {
    for range in options.retried.as_slice() {
        let first = range.first;
        let last = range.last;
        write!(out, " retried {first} {last}")?;
    }
    for field in options.fields.as_slice() {
        let name = text(&field.name);
        let value = text(&field.value);
        write!(out, " {name}: {value}")?;
    }
    Ok(())
}

fn show_output(out: &mut String, set: &OutputSet) -> Result<(), Memory> {
    let name = text(&set.name);
    let glob = text(&set.glob);
    write!(out, "\n{name} {glob}")?;
    if set.id != set.name {
        let id = text(&set.id);
        write!(out, " id {id}")?;
    }
    show_output_kind(out, &set.kind)?;
    match set.retries {
        Retries::Times(times) => write!(out, " retries {times}")?,
        Retries::Unlimited => write!(out, " retries always")?,
    }
    show_limit(out, set.total_limit)?;
    show_shared(out, &set.shared)
}
