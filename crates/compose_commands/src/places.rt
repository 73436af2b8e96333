//! Where the table in use is kept, and where its service listens.
use crate::environment::variable_text;
use crate::state_folder::StateFolder;
use compose_input::Fault;
use std::rt::Env;

/// Returns the folder of the table in use: the argument, or otherwise that of the environment.
/// Errors: a refusal of `state` if neither says which; `Word` if a variable is not UTF-8; `NoMemory`
/// if memory runs out.
pub fn state_folder(
    rt: &(impl Env + AllocGlobal),
    argument: Option<&str>,
) -> Result<StateFolder, Fault> {
    if let Some(path) = argument {
        return StateFolder::new(rt.alloc(), path);
    }
    if let Some(states) = variable_text(rt, "XDG_STATE_HOME")? {
        let path = format!(in rt.alloc(); "{states}/composecheck")?;
        return StateFolder::new(rt.alloc(), &path);
    }
    let Some(home) = variable_text(rt, "HOME")? else {
        let words = String::from_str(rt.alloc(), "neither XDG_STATE_HOME nor HOME is set");
        return Err(Fault::refused("state", words));
    };
    let path = format!(in rt.alloc(); "{home}/.local/state/composecheck")?;
    StateFolder::new(rt.alloc(), &path)
}

/// Returns the path of the running service's socket: the argument, or otherwise that of the
/// environment, if it has one.
/// Errors: `Word` if a variable is not UTF-8; `NoMemory` if memory runs out.
pub fn socket_path(
    rt: &(impl Env + AllocGlobal),
    argument: Option<&str>,
) -> Result<Option<String>, Fault> {
    if let Some(path) = argument {
        return Ok(Some(String::from_str(rt.alloc(), path)?));
    }
    match variable_text(rt, "XDG_RUNTIME_DIR")? {
        Some(folder) => Ok(Some(format!(in rt.alloc(); "{folder}/composecheck.socket")?)),
        None => Ok(None),
    }
}
