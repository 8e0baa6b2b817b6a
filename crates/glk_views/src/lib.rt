//! The view that wraps beside the one that doesn't: what the calls of Glk come to in both.
//!
//! Nothing runs here. What is said in both is made of the same parts (specs/Parts), one text as they come and the other
//! wrapped; a text that is made of parts keeps them (specs/Laws), and each call of Glk keeps both scenes beside one
//! another (specs/Beside, specs/Calls). gx_play says the same of whole runs.
#![tactic(auto)]

ghost use Rattle.glk_views.specs.Calls.{CallsBeside};
ghost use Rattle.glk_views.specs.Laws.{WrappingKeepsParts};

/// A text that is made of parts loses nothing where it is wrapped, and has no row that is too wide.
pub fn wrapping_keeps_parts()
    ensures { WrappingKeepsParts }
{}

/// A call comes to the same in both views, but for what is wrapped of the text.
pub fn calls_are_beside()
    ensures { CallsBeside }
{}
