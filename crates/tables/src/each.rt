// Each vertex in each layer.

ghost use Rattle.std.specs.Prelude.{◌≡◌, ℕ, ◌<◌, true, false};

use network::Size;

// Whether each vertex in each layer passes the test.
pub(crate) fn all_places<F: Fn(u8, u16) -> bool>(size: Size<1024>, test: F) -> bool
    requires { (l v : ℕ) → l < size.layers → v < size.vertices → F.pre test l v }
    ensures passed { result ≡ true
        → (l v : ℕ) → l < size.layers → v < size.vertices → F.post test l v true }
    ensures failed { result ≡ false
        → (l : ℕ) × (v : ℕ) × (l < size.layers) × (v < size.vertices) × F.post test l v false }
{
    for layer in 0..size.layers {
        for vertex in 0..size.vertices {
            if !test(layer, vertex) {
                return false;
            }
        }
    }
    true
}
