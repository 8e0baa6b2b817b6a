//! A node of memory: 16 chunks, each shared until a page of it is written to. A group is a node of pages, and
//! a leaf a node of groups.
ghost use Rattle.std.specs.Prelude.{◌≡◌, ◌*◌, replicate, IfOk};
ghost use Rattle.gx_pages.specs.Chunks.{AreSixteen, flat};

use crate::chunk::{Child, Chunk, Page, Writable, write_pair_in};
use crate::chunks::{owners, put, rest_of_page, take_from, write, write_in_one, write_over_edge};
use std::alloc::{AllocError, Allocator, Global};
use std::rc::Rc;

/// 16 pages.
pub type Group<A> = Node<[u8; 256], A>;

/// 16 groups.
pub type Leaf<A> = Node<Group<A>, Global>;

/// 16 chunks, which are placed by `P`.
#[derive(Drop)]
pub struct Node<C, P: Allocator> {
    chunks: [Rc<C, P>; 16],
}

impl<C: Drop, P: Allocator> Clone for Node<C, P> {
    ghost use Rattle.std.specs.Prelude.{◌≡◌, length};
    ghost use Rattle.std.specs.List.{AllZip};

    ghost is_clone = { λ node copy. AllZip (λ x y. y.value ≡ x.value) node.chunks copy.chunks
        × (length copy.chunks ≡ 16) };

    fn clone(&self) -> Result<Node<C, P>, AllocError> {
        Ok(Node {
            chunks: self.chunks.clone()?,
        })
    }
}

impl<C: Child, P: Allocator> Chunk for Node<C, P> {
    ghost use Rattle.std.specs.Prelude.{◌*◌};
    ghost use Rattle.gx_pages.specs.Chunks.{AreSixteen, flat};
    ghost use Rattle.gx_pages.specs.Nodes.{sixteen_pages, sixteen_some, length-sixteen};

    const SIZE: usize = 16 * C::SIZE;

    ghost SIZE = { 16 * C.SIZE };

    ghost bytes_of = { λ node. flat C.bytes_of node.chunks };

    ghost IsWhole = { λ node. AreSixteen C.IsWhole node.chunks };

    #[inline(always)]
    fn rest_of_page(&self, at: usize) -> &[u8] {
        rest_of_page(&self.chunks, at)
    }

    ghost pages = { sixteen_pages C.SIZE C.pages };

    ghost some = { sixteen_some C.SIZE C.some };

    ghost sized = { λ node whole. length-sixteen C.bytes_of C.IsWhole C.SIZE C.sized node.chunks whole };
}

impl<A: Allocator, P: Allocator + Clone, C: Child + Writable<A, P>> Writable<A, Global>
    for Node<C, P> {
    ghost use Rattle.gx_pages.specs.Nodes.{clones_flat, sixteen_cloned};

    #[inline(always)]
    fn common<'a>(_common: &'a Page<A>, _bytes: &[u8]) -> Option<&'a Rc<Node<C, P>>> {
        None
    }

    #[inline(always)]
    fn write(&mut self, common: &Page<A>, at: usize, bytes: &[u8]) -> Result<(), AllocError> {
        write(&mut self.chunks, common, at, bytes)
    }

    fn write_across(
        &mut self,
        common: &Page<A>,
        at: usize,
        bytes: &[u8],
    ) -> Result<(), AllocError> {
        if at % C::SIZE + bytes.len() <= C::SIZE {
            return write_in_one(&mut self.chunks, common, at, bytes);
        }
        let mut copy = self.clone()?;
        put(&mut copy.chunks, common, at, bytes)?;
        *self = copy;
        Ok(())
    }

    fn write_pair(
        first: &mut Node<C, P>,
        next: &mut Node<C, P>,
        end: &[u8],
        start: &[u8],
    ) -> Result<(), AllocError> {
        write_pair_in(&mut first.chunks[15], &mut next.chunks[0], end, start)
    }

    fn write_over_edge(&mut self, at: usize, bytes: &[u8]) -> Result<(), AllocError> {
        write_over_edge(&mut self.chunks, at, bytes)
    }

    fn take_from(&mut self, other: &Node<C, P>, from: usize, end: usize) -> Result<(), AllocError> {
        take_from(&mut self.chunks, &other.chunks, from, end)
    }

    ghost same_copied = { λ node copy copied. clones_flat C.bytes_of node.chunks copy.chunks copied.0 };

    ghost whole_copied = { λ node copy copied. sixteen_cloned C.IsWhole node.chunks copy.chunks copied };
}

impl<A: Allocator> Child for Group<A> {
    ghost use Rattle.std.proofs.Common.{rules};

    ghost small = { Prim.search rules };
}

impl<C: Child, P: Allocator> Node<C, P> {
    /// A node whose chunks are all one.
    pub fn filled(alloc: Global, chunk: &Rc<C, P>) -> Result<Node<C, P>, AllocError>
        requires { C.IsWhole chunk.now.value }
        ensures whole { IfOk result (λ node. AreSixteen C.IsWhole node.chunks) }
        ensures zero { C.bytes_of chunk.now.value ≡ replicate C.SIZE 0
            → IfOk result (λ node. flat C.bytes_of node.chunks ≡ replicate (16 * C.SIZE) 0) }
    {
        Ok(Node {
            chunks: owners(alloc, chunk)?,
        })
    }
}
