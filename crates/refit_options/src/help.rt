// What `refit help` prints.
ghost use Rattle.std.specs.Prelude.{◌≡◌};
ghost use Rattle.text_buffer.specs.Text.{wrote};
ghost use Rattle.refit_options.specs.Help.{help_beginning_text, fit_options_text, other_options_text, help_theta_text, help_text};

use text_buffer::Text;

#[tactic(auto, unfolding(crate::specs::Help::help_beginning_text))]
fn beginning(out: &mut Text<'_>)
    ensures { out.new ≡ wrote out.old help_beginning_text }
{
    out.put(
        b"refit: fits a dosing curve to weighed doses, with each canister's own curve\n\n  refit [FILE] [options]    fits the readings of FILE; without FILE, R's data set Orange\n  refit help                this text; so do -h and --help\n  refit --version           the version\n\nA line of the file is a reading: dose,grams,canister; a semicolon, a tab or spaces may stand for the comma. A number\nhas up to 15 digits, and a point before its decimals. The canister is a number or a name of up to 32 letters, digits,\n'-', '.' and '_'. A line that begins with # is a comment. The first line may be a header; a name in it that is known, as\ndose, steps, age or grams, weight or canister, must stand over its column. At most 512 readings and 32 canisters.\nA run that is refused says why on standard error and writes nothing to standard output. There is no exit status.\n\n",
    );
}

#[tactic(auto, unfolding(text_buffer::specs::Text::joined, text_lines::specs::Lines::left_text, svg_axes::specs::Subject::value_names, crate::specs::Words::value_name_text, crate::specs::Words::equation, crate::specs::Help::curve_option_text, crate::specs::Help::start_names_text, crate::specs::Help::fit_options_text))]
fn fit_options(out: &mut Text<'_>)
    ensures { out.new ≡ wrote out.old fit_options_text }
{
    out.put(
        b"  --curve SSlogis     Asym / (1 + exp((xmid - dose) / scal)): this one if none is named\n  --curve SSasymp     Asym + (R0 - Asym) * exp(-exp(lrc) * dose)\n  --curve SSmicmen    Vm * dose / (K + dose)\n  --curve SSfpl       A + (B - A) / (1 + exp((xmid - dose) / scal))\n  --effect NAME       the value that each canister has its own of: Asym, R0, K, ..; if none is named the curve's first\n  --start a,b,c       start values by hand: Asym,xmid,scal or Asym,R0,lrc or Vm,K or A,B,xmid,scal\n  --ml, --reml        maximum likelihood, if nothing is said, or restricted maximum likelihood\n",
    );
}

#[tactic(auto, unfolding(crate::specs::Help::other_options_text))]
fn other_options(out: &mut Text<'_>)
    ensures { out.new ≡ wrote out.old other_options_text }
{
    out.put(
        b"  --quadrature N      the order of quadrature, 0 to 11; 0 or 1, if nothing is said, is none. CAUTION: the others\n                      follow the published Rust to the last bit, and its correction moves theta far away from where\n                      other programs find it. Leave it out unless you want just those numbers.\n  --svg NAME.svg      also a picture of the readings and each canister's curve; a file of that name is overwritten\n\n",
    );
}

#[tactic(auto, unfolding(crate::specs::Help::help_theta_text))]
fn theta(out: &mut Text<'_>)
    ensures { out.new ≡ wrote out.old help_theta_text }
{
    out.put(
        b"theta says how freely a canister's own value may differ: an effect b adds (b / theta)^2 to the squared differences.\nSo it is the effects' spread measured in standard deviations of a reading: spread = theta * root of sigma2.\nIt is searched from 0.2 to 20 in a bracket that ends at most 0.0001 wide, with at most 60 narrowings. Each fit may\ntake 200 rounds. The values of the curve have no bounds. What a report warns of stands between *** and ***, and in the\npicture's title: do not use such numbers before you have read it.\n",
    );
}

#[tactic(auto, using(text_buffer::specs::laws::Text::wrote_then), unfolding(crate::specs::Help::help_text))]
pub fn help(out: &mut Text<'_>)
    ensures { out.new ≡ wrote out.old help_text }
{
    beginning(out);
    fit_options(out);
    other_options(out);
    theta(out);
}
