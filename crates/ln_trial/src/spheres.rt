//! The source of the incircle predicate, which several tests compile.

pub const CIRCLE: &str = "site point { x: -1048576 .. 1048576; y: -1048576 .. 1048576; }
predicate incircle(a: point, b: point, c: point, d: point) {
  let ax = a.x - d.x; let ay = a.y - d.y;
  let bx = b.x - d.x; let by = b.y - d.y;
  let cx = c.x - d.x; let cy = c.y - d.y;
  let aw = ax^2 + ay^2; let bw = bx^2 + by^2; let cw = cx^2 + cy^2;
  sign ax*(by*cw - bw*cy) - ay*(bx*cw - bw*cx) + aw*(bx*cy - by*cx);
}
";
