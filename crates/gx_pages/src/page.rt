//! A page of memory: 256 bytes.
ghost use Rattle.std.specs.Prelude.{◌≡◌, true, ◌≤◌, length, replicate, IfOk};

use crate::chunk::{Child, Chunk, Page, Writable, write_to};
use gx_words::splice;
use std::alloc::{AllocError, Allocator};
use std::rc::Rc;

impl Chunk for [u8; 256] {
    ghost use Rattle.std.specs.Prelude.{refl};
    ghost use Rattle.gx_pages.specs.Leaves.{IsPage, page_bytes};
    ghost use Rattle.std.proofs.Common.{rules};

    const SIZE: usize = 256;

    ghost SIZE = { 256 };

    ghost bytes_of = { page_bytes };

    ghost IsWhole = { IsPage };

    #[inline(always)]
    fn rest_of_page(&self, at: usize) -> &[u8] {
        &self[at..]
    }

    ghost pages = { refl };

    ghost some = { Prim.search rules };

    ghost sized = { λ x whole. whole };
}

impl Child for [u8; 256] {
    ghost use Rattle.std.proofs.Common.{rules};

    ghost small = { Prim.search rules };
}

impl<A: Allocator + Clone> Writable<A, A> for [u8; 256] {
    ghost use Rattle.std.specs.List.{each_same};

    #[inline(always)]
    fn common<'a>(common: &'a Page<A>, bytes: &[u8]) -> Option<&'a Page<A>> {
        if bytes.len() == 256 && is_page(common, bytes) {
            return Some(common);
        }
        None
    }

    #[inline(always)]
    fn write(&mut self, _common: &Page<A>, at: usize, bytes: &[u8]) -> Result<(), AllocError> {
        splice(self, at, bytes);
        Ok(())
    }

    fn write_across(
        &mut self,
        _common: &Page<A>,
        at: usize,
        bytes: &[u8],
    ) -> Result<(), AllocError> {
        splice(self, at, bytes);
        Ok(())
    }

    fn write_pair(
        first: &mut [u8; 256],
        next: &mut [u8; 256],
        end: &[u8],
        start: &[u8],
    ) -> Result<(), AllocError> {
        splice(first, 256 - end.len(), end);
        splice(next, 0, start);
        Ok(())
    }

    fn write_over_edge(&mut self, at: usize, bytes: &[u8]) -> Result<(), AllocError> {
        splice(self, at, bytes);
        Ok(())
    }

    fn take_from(&mut self, other: &[u8; 256], from: usize, end: usize) -> Result<(), AllocError> {
        splice(self, from, &other[from..end]);
        Ok(())
    }

    ghost same_copied = { λ x y copied. each_same x y copied.whole };

    ghost whole_copied = { λ x y copied whole. copied.long };
}

/// A page of zeros, placed by `pages`.
pub fn zero_page<A: Allocator>(pages: A) -> Result<Page<A>, AllocError>
    ensures value { IfOk result (λ page. page.value ≡ replicate 256 0) }
    ensures size { IfOk result (λ page. length page.value ≡ 256) }
{
    Ok(Rc::new(pages, [0; 256])?)
}

/// A page with these bytes, placed by `pages`.
pub fn page_of<A: Allocator>(pages: A, bytes: &[u8]) -> Result<Page<A>, AllocError>
    requires { length bytes.now ≡ 256 }
    ensures { IfOk result (λ page. length page.value ≡ 256) }
{
    let mut page = [0; 256];
    page.copy_from_slice(bytes);
    Ok(Rc::new(pages, page)?)
}

/// A page of zeros: `page` if that is one, or else a new one, placed as `page` is.
pub fn zero_of<A: Allocator + Clone>(page: &Page<A>) -> Result<Page<A>, AllocError>
    requires { length page.now.value ≡ 256 }
    ensures value { IfOk result (λ zero. zero.value ≡ replicate 256 0) }
    ensures size { IfOk result (λ zero. length zero.value ≡ 256) }
{
    let mut zero = page.clone()?;
    write_to(&mut zero, page, 0, zeros(256))?;
    Ok(zero)
}

/// `count` zeros.
pub fn zeros(count: usize) -> &'static [u8]
    requires { count ≤ 256 }
    ensures { result.now ≡ replicate count 0 }
{
    &[0; 256][..count]
}

/// Whether a whole page of the bytes is zeros.
pub fn has_zero_page(bytes: &[u8]) -> bool {
    for page in bytes.chunks(256) {
        if page == zeros(256) {
            return true;
        }
    }
    false
}

/// Whether bytes are those of a page.
fn is_page<A: Allocator>(page: &Page<A>, bytes: &[u8]) -> bool
    ensures { result ≡ true → bytes.now ≡ page.now.value }
{
    bytes == &page[..]
}
