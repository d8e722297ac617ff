ghost use Rattle.std.specs.Prelude.{◌≡◌, IfOk, false};
ghost use Rattle.clap.specs.Words.{app_of, rule_of};
ghost use Rattle.im_words.specs.Command as spec;

use crate::mode::NAMES;
use crate::setting::Setting;
use clap::builder::ValueParser;
use clap::{Arg, Command};
use std::alloc::{AllocError, Global};

/// The id of the mode among the arguments of the command.
pub const MODE: &str = "mode";

/// The argument that names the mode. It has no name of its own, and may not be left out.
fn mode_arg<'a>(alloc: Global) -> Arg<'a>
    ensures rule { spec.IsModeRule (rule_of result) }
    ensures local { result.global ≡ false }
{
    Arg::new(alloc, MODE)
        .required(true)
        .value_parser(NAMES.as_slice())
}

/// The argument `--NAME N` of a setting.
fn setting_arg<'a>(alloc: Global, setting: Setting) -> Arg<'a>
    ensures rule { rule_of result ≡ spec.setting_rule setting }
    ensures local { result.global ≡ false }
{
    let name: &'a str = setting.name();
    Arg::new(alloc, name)
        .long(name)
        .value_parser(ValueParser::unsigned(setting.least(), setting.most()))
}

/// The command that reads the words: a mode, and each setting at most once, in any order.
pub fn command<'a>(alloc: Global) -> Result<Command<'a>, AllocError>
    ensures { IfOk result (λ made. spec.IsCommand (app_of made)) }
{
    Command::new(alloc, "ime")
        .disable_help_flag(true)
        .arg(mode_arg(alloc))?
        .arg(setting_arg(alloc, Setting::Area))?
        .arg(setting_arg(alloc, Setting::Workers))?
        .arg(setting_arg(alloc, Setting::Turns))?
        .arg(setting_arg(alloc, Setting::Rows))?
        .arg(setting_arg(alloc, Setting::Seed))
}
