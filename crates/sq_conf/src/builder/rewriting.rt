//! The program that rewrites targets.
ghost use Rattle.std.specs.Prelude.{◌≡◌, true, is_some, length, nat_lt, Some};
ghost use Rattle.sq_rules.specs.Configurations.{is_rewriter_class};

use crate::builder::Builder;
use sq_base::Texts;
use sq_rules::Class;

impl Builder {
    /// Whether a program that rewrites is stated.
    pub fn has_program(&self) -> bool
        ensures { result ≡ is_some self.now.program }
    {
        self.program.is_some()
    }

    /// Sets the words of the program that rewrites, one or more.
    pub fn set_program(&mut self, words: Texts)
        requires { nat_lt 0 (length words) ≡ true }
        ensures { self.new ≡ record self.old { program = Some words } }
    {
        self.program = Some(words);
    }

    /// Whether the numbers of its processes are stated.
    pub fn has_children(&self) -> bool
        ensures { result ≡ is_some self.now.children }
    {
        self.children.is_some()
    }

    /// Sets the class of the program that rewrites, which has its name; its words count for nothing.
    pub fn set_children(&mut self, class: Class)
        requires { is_rewriter_class class ≡ true }
        ensures { self.new ≡ record self.old { children = Some class } }
    {
        self.children = Some(class);
    }
}
