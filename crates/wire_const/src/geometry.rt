//! Kinds of geometries.

ghost use Rattle.std.specs.Prelude.{◌≡◌};
ghost use Rattle.wire_const.specs.EnumNumbers.{geometry_type_number, ConvertsNumber};

use thiserror::Error;

/// The kind of a geometry, as in its well-known binary form and in the columns of a table that the
/// binary log describes.
///
/// <https://dev.mysql.com/doc/refman/8.0/en/gis-data-formats.html>
#[derive(Clone, Copy, Debug, PartialEq, Eq, Hash)]
#[allow(non_camel_case_types)]
#[repr(u8)]
pub enum GeometryType {
    /// Any of the others.
    GEOM_GEOMETRY = 0,
    /// A point.
    GEOM_POINT = 1,
    /// A line through points.
    GEOM_LINESTRING = 2,
    /// A polygon, which may have holes.
    GEOM_POLYGON = 3,
    /// Points.
    GEOM_MULTIPOINT = 4,
    /// Lines.
    GEOM_MULTILINESTRING = 5,
    /// Polygons.
    GEOM_MULTIPOLYGON = 6,
    /// Geometries of any kinds.
    GEOM_GEOMETRYCOLLECTION = 7,
}

/// The number is none of [`GeometryType`]'s.
#[derive(Clone, Copy, Debug, PartialEq, Eq, Error)]
#[error("Unknown geometry type {0}")]
pub struct UnknownGeometryType(pub u8);

impl TryFrom<u8> for GeometryType {
    type Error = UnknownGeometryType;

    ghost try_from_gives = { ConvertsNumber geometry_type_number (λ unknown. unknown.0) };

    fn try_from(number: u8) -> Result<Self, UnknownGeometryType> {
        match number {
            0 => Ok(Self::GEOM_GEOMETRY),
            1 => Ok(Self::GEOM_POINT),
            2 => Ok(Self::GEOM_LINESTRING),
            3 => Ok(Self::GEOM_POLYGON),
            4 => Ok(Self::GEOM_MULTIPOINT),
            5 => Ok(Self::GEOM_MULTILINESTRING),
            6 => Ok(Self::GEOM_MULTIPOLYGON),
            7 => Ok(Self::GEOM_GEOMETRYCOLLECTION),
            other => Err(UnknownGeometryType(other)),
        }
    }
}

impl From<UnknownGeometryType> for u8 {
    ghost from_gives = { λ unknown number. number ≡ unknown.0 };

    fn from(unknown: UnknownGeometryType) -> u8 {
        unknown.0
    }
}
