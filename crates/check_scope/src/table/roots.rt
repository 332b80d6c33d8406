//! Where long walks from accesses stop.

ghost use Rattle.std.specs.Prelude.{◌≡◌, length};
ghost use Rattle.check_scope.specs.Context.{Context, ContextFits};
ghost use Rattle.check_scope.specs.Roots.{root_at};
ghost use Rattle.check_scope.specs.walk.SeenContext.{context_of};
ghost use Rattle.check_scope.specs.walk.Table.{KnowsRoots};

use crate::context::BlockContext;
use crate::roots::{access_base_in, root_at};
use crate::table::RootColumn;
use ir_arena::handle::Handle;
use ir_arena::tag;
use std::alloc::{AllocError, Global};

// how many steps a walk takes before the roots of all expressions are found
const SHORT_WALK: u32 = 16;

impl RootColumn {
    /// Of no expression.
    pub fn new(alloc: Global) -> RootColumn {
        RootColumn {
            roots: Vec::new(alloc),
        }
    }

    /// Begins a function: nothing is kept.
    pub fn begin(&mut self)
        ensures { (context : Context) → KnowsRoots context self.new }
    {
        self.roots.clear();
    }

    /// Where the walk from an expression stops, which goes from an access to its base.
    #[inline]
    pub fn root_at(
        &mut self,
        context: &BlockContext,
        expression: Handle<tag::Expression>,
    ) -> Handle<tag::Expression>
        requires context { ContextFits (context_of context.now) }
        requires roots { KnowsRoots (context_of context.now) self.old }
        ensures root { result ≡ root_at (context_of context.now) expression }
        ensures roots { KnowsRoots (context_of context.now) self.new }
    {
        let mut handle = expression;
        for _step in 0..SHORT_WALK {
            match access_base_in(context.expression(handle)) {
                Some(base) => handle = base,
                None => return handle,
            }
        }
        self.far_root_at(context, handle)
    }

    /// The same where the walk is long: by the roots of all expressions, which are found once for a function. Where
    /// memory is short the walk is made.
    #[cold]
    #[inline(never)]
    fn far_root_at(
        &mut self,
        context: &BlockContext,
        expression: Handle<tag::Expression>,
    ) -> Handle<tag::Expression>
        requires context { ContextFits (context_of context.now) }
        requires roots { KnowsRoots (context_of context.now) self.old }
        ensures root { result ≡ root_at (context_of context.now) expression }
        ensures roots { KnowsRoots (context_of context.now) self.new }
    {
        if expression.index() >= self.roots.len() {
            let _ = self.find_all(context);
        }
        match self.roots.as_slice().get(expression.index()) {
            Some(root) => *root,
            None => root_at(context, expression),
        }
    }

    /// The roots of all expressions: that of an access is that of its base, which stands before it.
    fn find_all(&mut self, context: &BlockContext) -> Result<(), AllocError>
        requires { ContextFits (context_of context.now) }
        ensures { KnowsRoots (context_of context.now) self.new }
    {
        self.roots.clear();
        let count = context.fun.expressions.len() as u32;
        for index in 0..count {
            let handle = Handle::new(index);
            let root = self.next_root(context, handle);
            self.roots.push(root)?;
        }
        Ok(())
    }

    /// The root of an expression, where those of all expressions before it are kept.
    fn next_root(
        &self,
        context: &BlockContext,
        handle: Handle<tag::Expression>,
    ) -> Handle<tag::Expression>
        requires context { ContextFits (context_of context.now) }
        requires before { handle ≡ length self.now.roots.items }
        requires roots { KnowsRoots (context_of context.now) self.now }
        ensures { result ≡ root_at (context_of context.now) handle }
    {
        match access_base_in(context.expression(handle)) {
            Some(base) => {
                let place = base.index();
                self.roots[place]
            }
            None => handle,
        }
    }
}
