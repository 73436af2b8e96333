//! Reads the environment.
use compose_given::{Environment, Variable};
use compose_input::Fault;
use std::env;
use std::env::VarError;
use std::rt::Env;

/// Reads the variables of the environment that commands use. `is_terminal` says whether standard
/// output is a terminal.
/// Errors: `NoMemory` if memory runs out.
pub fn read_environment(
    rt: &(impl Env + AllocGlobal),
    is_terminal: bool,
) -> Result<Environment, Fault> {
    Ok(Environment {
        lc_all: variable(rt, "LC_ALL")?,
        lc_ctype: variable(rt, "LC_CTYPE")?,
        lang: variable(rt, "LANG")?,
        xlocaledir: variable(rt, "XLOCALEDIR")?,
        home: variable(rt, "HOME")?,
        no_color: variable(rt, "NO_COLOR")?,
        xcomposefile: variable(rt, "XCOMPOSEFILE")?,
        xdg_config_home: variable(rt, "XDG_CONFIG_HOME")?,
        is_terminal,
    })
}

/// Reads a variable of the environment.
fn variable(rt: &(impl Env + AllocGlobal), name: &str) -> Result<Variable, Fault> {
    match env::var(rt, name) {
        Ok(value) => Ok(Variable::Set(value)),
        Err(VarError::NotPresent) => Ok(Variable::Unset),
        Err(VarError::NotUnicode) => Ok(Variable::NotUtf8),
        Err(VarError::OutOfMemory) => Err(Fault::NoMemory),
    }
}

/// Returns the value of a variable of the environment, if it is set and not empty.
/// Errors: `Word` if the value is not UTF-8; `NoMemory` if memory runs out.
pub fn variable_text(rt: &(impl Env + AllocGlobal), name: &str) -> Result<Option<String>, Fault> {
    match variable(rt, name)? {
        Variable::Set(text) if !text.is_empty() => Ok(Some(text)),
        Variable::Set(_) | Variable::Unset => Ok(None),
        Variable::NotUtf8 => Err(Fault::Word),
    }
}
