// A planar picture: three lent planes with their strides, and the sides of the luma plane. Slices beside strides and no `Plane`s: document 01
// has slices beside a struct of sides and strides. C hands these over, and `with_planes` joins them.
// A destination is asked of by its length and its stride, and no `Buffer`: the length goes into `Lengths`, and the stride stays. That the
// settings are `decoded codes` is said of each result, as in `calls`, whose head says why.
ghost use Rattle.std.specs.Prelude.{◌≡◌, ◌≤◌, length, IfOk};
ghost use Rattle.yuv_support.specs.Settings.{among};
ghost use Rattle.yuv_support.specs.Questions.{verdict, decoded, questions_of, band_questions};
ghost use Rattle.yuv_error.specs.Told.{answered};
ghost use Rattle.images.specs.Request.{constraints, request_of};
ghost use Rattle.images.specs.Lent.{geometry, lengths_with};

use crate::{Lengths, calls, planes};
use sample::Sample;
use sample::plane::{Plane, Size};
use yuv_error::YuvError;
use yuv_support::{Codes, Geometry, Settings, YuvChromaSubsampling};

#[derive(Clone, Copy, Debug)]
pub struct YuvPlanarImage<'a, S> {
    pub y_plane: &'a [S],
    pub y_stride: u32,
    pub u_plane: &'a [S],
    pub u_stride: u32,
    pub v_plane: &'a [S],
    pub v_stride: u32,
    pub width: u32,
    pub height: u32,
}

impl<'a, S: Sample> YuvPlanarImage<'a, S> {
    // The picture whose sides and strides are these, with its planes.
    pub fn with_planes(image: Geometry, y: &'a [S], u: &'a [S], v: &'a [S]) -> YuvPlanarImage<'a, S>
        ensures sides { geometry result ≡ image }
        ensures y_plane { result.y_plane.now ≡ y.now }
        ensures u_plane { result.u_plane.now ≡ u.now }
        ensures v_plane { result.v_plane.now ≡ v.now }
    {
        YuvPlanarImage {
            y_plane: y,
            y_stride: image.y_stride,
            u_plane: u,
            u_stride: image.u_stride,
            v_plane: v,
            v_stride: image.v_stride,
            width: image.width,
            height: image.height,
        }
    }

    // The sides and the strides alone.
    pub fn geometry(&self) -> Geometry
        ensures { result ≡ geometry self.now }
    {
        Geometry {
            width: self.width,
            height: self.height,
            y_stride: self.y_stride,
            u_stride: self.u_stride,
            v_stride: self.v_stride,
        }
    }

    // The sides of the luma plane.
    pub fn size(&self) -> Size
        ensures { result ≡ record { width = self.now.width; height = self.now.height } }
    {
        Size::from(self.geometry())
    }

    // The luma plane as it is lent, with its stride.
    pub fn y(&self) -> Plane<'a, S>
        ensures elements { result.elements.now ≡ self.now.y_plane.now }
        ensures stride { result.stride ≡ self.now.y_stride }
    {
        Plane {
            elements: self.y_plane,
            stride: self.y_stride,
        }
    }

    // The plane U as it is lent, with its stride.
    pub fn u(&self) -> Plane<'a, S>
        ensures elements { result.elements.now ≡ self.now.u_plane.now }
        ensures stride { result.stride ≡ self.now.u_stride }
    {
        Plane {
            elements: self.u_plane,
            stride: self.u_stride,
        }
    }

    // The plane V as it is lent, with its stride.
    pub fn v(&self) -> Plane<'a, S>
        ensures elements { result.elements.now ≡ self.now.v_plane.now }
        ensures stride { result.stride ≡ self.now.v_stride }
    {
        Plane {
            elements: self.v_plane,
            stride: self.v_stride,
        }
    }

    // The lengths of the planes, with that of a destination.
    pub fn lengths(&self, rgb: usize) -> Lengths
        ensures { result ≡ lengths_with self.now rgb }
    {
        Lengths {
            y: self.y_plane.len() as u64,
            u: self.u_plane.len() as u64,
            v: self.v_plane.len() as u64,
            rgb: rgb as u64,
        }
    }

    // Questions 7 to 12, in a sampling.
    pub fn check_constraints(&self, subsampling: YuvChromaSubsampling) -> Result<(), YuvError>
        ensures answer { answered result
            ≡ verdict (constraints subsampling (geometry self.now) (lengths_with self.now 0)) }
    {
        planes::check_constraints(subsampling, self.geometry(), self.lengths(0))
    }

    // Questions 1 to 13 of a conversion into a destination of `rgb` elements, strided by `rgb_stride`: the settings, or the error of the
    // first "no".
    pub fn check_conversion(
        &self,
        codes: Codes,
        rgb: usize,
        rgb_stride: u32,
    ) -> Result<Settings, YuvError>
        ensures answer { answered result
            ≡ verdict (questions_of (among codes.depth S.known)
            (request_of codes (geometry self.now) (lengths_with self.now rgb) rgb_stride)) }
        ensures settings { IfOk result (λ s. s ≡ decoded codes) }
    {
        calls::check_conversion::<S>(codes, self.geometry(), self.lengths(rgb), rgb_stride)
    }

    // The same of a band from row `first` on: then question 19.
    pub fn check_band(
        &self,
        codes: Codes,
        rgb: usize,
        rgb_stride: u32,
        first: u32,
    ) -> Result<Settings, YuvError>
        ensures answer { answered result
            ≡ verdict (band_questions
            (questions_of (among codes.depth S.known)
            (request_of codes (geometry self.now)
            (lengths_with self.now rgb) rgb_stride)) first self.now.height) }
        ensures settings { IfOk result (λ s. s ≡ decoded codes) }
    {
        calls::check_band::<S>(codes, self.geometry(), self.lengths(rgb), rgb_stride, first)
    }
}
